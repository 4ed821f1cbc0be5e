//! What the tests of decoders share: texts of lines, decoders within limits, and what their calls answer.

use cwr_decode::{Decoder, End, Outcome};
use cwr_shape::Limits;
use cwr_values::Item;
use cwr_worked::texts::{canonical, trimmed_text};
use std::process::Abort;

/// The most records, groups and records of a transaction.
pub(crate) type Numbers = (u32, u32, u32);

/// The largest numbers of limits.
pub(crate) const LARGEST: Numbers = (99_999_999, 99_999, 999_999);

/// These limits.
pub(crate) fn limits_of(rt: &impl Abort, numbers: Numbers) -> Limits {
    Limits::new(numbers.0, numbers.1, numbers.2).expect(rt, "no limits")
}

/// A decoder with these limits.
pub(crate) fn decoder_within(rt: &(impl Abort + AllocGlobal), numbers: Numbers) -> Decoder {
    Decoder::new(rt.alloc(), limits_of(rt, numbers))
}

/// The canonical text of lines.
pub(crate) fn text_of(rt: &(impl Abort + AllocGlobal), lines: &[&[u8]]) -> Vec<u8> {
    canonical(rt.alloc(), lines).expect(rt, "no memory")
}

/// The canonical text of lines, and again.
pub(crate) fn twice_of(rt: &(impl Abort + AllocGlobal), lines: &[&[u8]]) -> Vec<u8> {
    let text = text_of(rt, lines);
    text.as_slice()
        .repeat(rt.alloc(), 2)
        .expect(rt, "no memory")
}

/// The text of lines without trailing spaces.
pub(crate) fn short_text_of(rt: &(impl Abort + AllocGlobal), lines: &[&[u8]]) -> Vec<u8> {
    trimmed_text(rt.alloc(), lines).expect(rt, "no memory")
}

/// The name of an outcome.
fn name_of(outcome: &Outcome) -> &'static str {
    match outcome {
        Outcome::More => "more",
        Outcome::Item(Item::Opened(_)) => "opened",
        Outcome::Item(Item::GroupOpened(_)) => "group opened",
        Outcome::Item(Item::Transaction(_)) => "transaction",
        Outcome::Item(Item::GroupClosed(_)) => "group closed",
        Outcome::Item(Item::Ended) => "ended",
        Outcome::Refused(_) => "refused",
        Outcome::Truncated { .. } => "truncated",
        Outcome::Memory => "memory",
        Outcome::Done => "done",
    }
}

/// Feeds a piece: how many bytes are used, and the name of the outcome.
pub(crate) fn feed(decoder: &mut Decoder, piece: &[u8]) -> (usize, &'static str) {
    let step = decoder.feed(piece);
    (step.used, name_of(&step.outcome))
}

/// Takes the end of the input: the name of the outcome.
pub(crate) fn finish(decoder: &mut Decoder) -> &'static str {
    name_of(&decoder.finish().outcome)
}

/// The name of what a decoder answers for good once the input has ended so.
pub(crate) fn name_after(end: End) -> &'static str {
    match end {
        End::Accepted { .. } => "done",
        End::Refused(_) => "refused",
        End::Truncated { .. } => "truncated",
    }
}

/// How the input ends by an outcome after so many used bytes. `None` where the outcome is none of an end.
pub(crate) fn end_by(outcome: &Outcome, used: usize) -> Option<End> {
    match outcome {
        Outcome::Refused(refusal) => Some(End::Refused(*refusal)),
        Outcome::Truncated { records } => Some(End::Truncated { records: *records }),
        Outcome::Item(Item::Ended) => Some(End::Accepted { used }),
        _ => None,
    }
}
