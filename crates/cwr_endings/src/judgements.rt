//! What is made of an input that is read: its verdict, what stands after it, and the status.

ghost use Rattle.std.specs.Prelude.{◌≡◌, OnErr};
ghost use Rattle.cwr_endings.specs.Steps.Looks.{CountsLook, LooksOnce, judgement_in};

use crate::endings::{Look, Status, Wanted, status_of};
use crate::looks::{look_beyond, tell_following};
use cwr_advice::Characters;
use cwr_devices::{Counted, Sink, Source};
use cwr_files::{Name, Told};
use cwr_tools::{ToolFault, Verdict, put_verdict_line};
use std::io::Write;

/// What was made of an input that could be read: the verdict, what stands after it, and the status.
#[derive(Clone, Copy, Debug)]
pub struct Judgement {
    pub verdict: Verdict,
    pub look: Look,
    pub status: Status,
}

/// Looks what an input has left after its transmission, where the verdict is good.
pub fn look_after<R: Source>(reader: &mut R, outcome: &Result<Verdict, ToolFault>) -> Look
    ensures looks { LooksOnce (R.remaining reader.old) (R.remaining reader.new) outcome.now result }
    ensures unasked { OnErr outcome.now (result ≡ Look.Unasked) }
    ensures failures { CountsLook result (R.failures reader.old) (R.failures reader.new) }
{
    match outcome {
        Ok(Verdict::Good { .. }) => look_beyond(reader),
        _ => Look::Unasked,
    }
}

/// What is made of an input with that outcome, where `found` says whether a finding came that is unwanted. Where nothing may follow the
/// transmission, and the input failed there, that is its fault.
pub fn judgement_of(
    wanted: Wanted,
    outcome: Result<Verdict, ToolFault>,
    look: Look,
    found: bool,
) -> Result<Judgement, ToolFault>
    ensures { result ≡ judgement_in wanted outcome look found }
{
    match outcome {
        Ok(verdict) => match status_of(wanted, &verdict, look, found) {
            Some(status) => Ok(Judgement {
                verdict,
                look,
                status,
            }),
            None => Err(ToolFault::Reader),
        },
        Err(fault) => Err(fault),
    }
}

/// Tells on standard error where a transmission has no acknowledgement, `is_matched` with what was sent. What standard error doesn't take is
/// lost.
pub fn tell_unanswering<E: Write>(
    error: &mut E,
    name: Name<'_>,
    judgement: &Judgement,
    answers: u64,
    is_matched: bool,
) {
    if let (0, Verdict::Good { .. }) = (answers, judgement.verdict) {
        let swapped = if is_matched {
            ": are FILE and SENT swapped?"
        } else {
            ""
        };
        let _ = writeln!(error, "cwr: {name}: it has no acknowledgement{swapped}");
    }
}

/// Tells on standard error where the header of a transmission says that its characters are in UTF-8, and its cells are read otherwise. What
/// standard error doesn't take is lost.
pub fn tell_characters<E: Write>(error: &mut E, told: &Told<'_>) {
    if Characters::in_cell(&told.character_set) == Characters::Utf8 {
        let _ = writeln!(
            error,
            "cwr: {}: HDR's character set says UTF-8, and cells are read as ISO 8859-1 (--utf8 reads UTF-8)",
            told.name
        );
    }
}

/// Tells on standard error the verdict on a transmission, and what follows that. What standard error doesn't take is lost.
pub fn tell_verdict<E: Write>(error: &mut E, name: Name<'_>, judgement: &Judgement) {
    let _ = put_verdict_line(
        &judgement.verdict,
        &mut Sink::new(Counted::new(&mut *error)),
    );
    tell_following(error, name, &judgement.look);
}
