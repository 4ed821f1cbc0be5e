//! How a run ends, by its verdict and by what is wanted beside it.

ghost use Rattle.std.specs.Prelude.{◌≡◌, ◌+◌, ℕ, List, Some, None, true, false, OnErr, OnOk};
ghost use Rattle.cwr_files.specs.Format.Faults.{IfErr, IsUnkept};
ghost use Rattle.cwr_files.specs.Format.Files.{HasCounted, Texts, counted_on};
ghost use Rattle.cwr_files.specs.Steps.NewFiles.{EndsDropped, EndsKept, HasBegun, HasKeptCount};
ghost use Rattle.cwr_files.specs.Format.Written.{is_whole, times_failed, writer_in};
ghost use Rattle.cwr_endings.specs.Format.Endings.{EndsAfterFault, worse_status};
ghost use Rattle.cwr_endings.specs.Steps.Looks.{follows, good_status, status_in, whole_status};

use crate::stops::Stop;
use cwr_causes::Trailing;
use cwr_files::{Fault, Name, NewFile, Store, Told, Written};
use cwr_shape::Level;
use cwr_tools::{ToolFault, Verdict};
use std::io::Write;

/// How a run ended, as its exit status, from the best to the worst.
#[derive(Clone, Copy, Debug, PartialEq, Eq)]
pub enum Status {
    /// The input is good.
    Good = 0,
    /// The input is refused, or ends too early, or less than was wanted, or the result would pass a limit.
    Refused = 1,
    /// The words don't ask for what the program does, or they ask for help.
    CommandLine = 2,
    /// A file, a device or memory failed.
    Fault = 3,
}

impl Status {
    /// The worse one of both.
    pub fn or_worse(self, other: Status) -> Status
        ensures { result ≡ worse_status self other }
    {
        match (self, other) {
            (Status::Fault, _) | (_, Status::Fault) => Status::Fault,
            (Status::CommandLine, _) | (_, Status::CommandLine) => Status::CommandLine,
            (Status::Refused, _) | (_, Status::Refused) => Status::Refused,
            (Status::Good, Status::Good) => Status::Good,
        }
    }
}

/// What is wanted of a transmission beside that it is good.
#[derive(Clone, Copy, Debug, PartialEq, Eq)]
pub struct Wanted {
    /// That no bytes follow it.
    pub whole: bool,
    /// That no finding has this level or a worse one.
    pub fail_on: Option<Level>,
}

/// What stands after a transmission, as far as it was looked for.
#[derive(Clone, Copy, Debug, PartialEq, Eq)]
pub enum Look {
    /// This was read.
    Found(Trailing),
    /// The input failed there.
    Failed,
    /// Nobody looked.
    Unasked,
}

/// Whether bytes stand after a transmission.
pub fn follows(trailing: &Trailing) -> bool
    ensures { result ≡ follows trailing.now }
{
    trailing.bytes > 0 || !trailing.is_all
}

/// The status of a run on a transmission that is good, by what follows that where nothing may. `None` where the input failed there.
fn status_after(whole: bool, look: Look) -> Option<Status>
    ensures { result ≡ whole_status whole look }
{
    match look {
        Look::Found(trailing) if whole && follows(&trailing) => Some(Status::Refused),
        Look::Failed if whole => None,
        Look::Found(_) | Look::Failed | Look::Unasked => Some(Status::Good),
    }
}

/// The status of a run on a transmission that is good, where `found` says whether a finding came that is unwanted. `None` where nothing
/// may follow it, and the input failed there.
pub fn good_status(wanted: Wanted, look: Look, found: bool) -> Option<Status>
    ensures { result ≡ good_status wanted look found }
{
    if found {
        return Some(Status::Refused);
    }
    status_after(wanted.whole, look)
}

/// The status of a good transmission, where `found` says whether a finding came that is unwanted.
pub fn status_by(found: bool) -> Status {
    if found { Status::Refused } else { Status::Good }
}

/// The status of a verdict, where `found` says whether a finding came that is unwanted. `None` where nothing may follow the
/// transmission, and the input failed there.
pub fn status_of(wanted: Wanted, verdict: &Verdict, look: Look, found: bool) -> Option<Status>
    ensures { result ≡ status_in wanted verdict.now look found }
{
    match verdict {
        Verdict::Good { .. } => good_status(wanted, look, found),
        Verdict::Refused(_) | Verdict::Truncated { .. } => Some(Status::Refused),
    }
}

/// What the end of a run means for the program, by the fault at which it stopped: that of the input, that of the output, or another.
pub fn ended_by<'a>(
    fault: Option<ToolFault>,
    input: Told<'a>,
    output: Stop<'a>,
    made: Stop<'a>,
) -> Result<Status, Stop<'a>>
    ensures { EndsAfterFault input.entry output.entry made.entry fault result }
{
    match fault {
        None => Ok(Status::Good),
        Some(ToolFault::Reader) => Err(Stop::Fault(Fault::Read(input))),
        Some(ToolFault::Writer { .. }) => Err(output),
        Some(ToolFault::Memory) => Err(Stop::Fault(Fault::Memory)),
        Some(ToolFault::Output) => Err(made),
        Some(ToolFault::Refused(_) | ToolFault::Truncated { .. } | ToolFault::Limit(_)) => {
            Ok(Status::Refused)
        }
    }
}

/// Gives a file its name where it is wanted, and else removes it. A file that it replaces is told of on standard error.
pub fn settle<'a, S: Store, E: Write>(
    store: &mut S,
    made: NewFile,
    written: Written<S::Writer>,
    out: &'a str,
    is_wanted: bool,
    error: &mut E,
) -> Result<(), Fault<'a>>
    ensures kept { is_wanted ≡ true → (texts : Texts) (text : List ℕ)
        → HasBegun made (S.making store.old) texts (S.held store.old)
        → S.Writer.contents (writer_in written) ≡ Some text
        → EndsKept made text (S.failures store.old) (S.failures store.new) result texts (S.held store.new) }
    // Where it can't have its name nothing is left of it, unless a second call failed.
    ensures unkept { is_wanted ≡ true → (texts : Texts)
        → HasBegun made (S.making store.old) texts (S.held store.old)
        → OnErr result (EndsDropped made (S.failures store.old + 1) (S.failures store.new) texts (S.held store.new)) }
    ensures whole { is_wanted ≡ true → OnOk result (is_whole written ≡ true) }
    ensures dropped { is_wanted ≡ false → (texts : Texts)
        → HasBegun made (S.making store.old) texts (S.held store.old)
        → EndsDropped made (counted_on (times_failed written) (S.failures store.old)) (S.failures store.new) texts (S.held store.new) }
    ensures making { S.making store.new ≡ None }
    ensures fault { IfErr result (λ fault. (is_wanted ≡ true) × IsUnkept (Name.File out.entry) fault) }
    ensures counted { OnErr result (HasCounted (S.failures store.old) (S.failures store.new)) }
    ensures failures { HasKeptCount (S.failures store.old) (S.failures store.new) }
    ensures given_up { is_wanted ≡ false → HasKeptCount (counted_on (times_failed written) (S.failures store.old)) (S.failures store.new) }
{
    if is_wanted {
        made.keep_as(store, written, Name::File(out), error)
    } else {
        made.give_up(store, written);
        Ok(())
    }
}
