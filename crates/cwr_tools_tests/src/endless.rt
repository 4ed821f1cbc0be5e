//! Tests of readers that have no end: the input is refused, and no more of it is taken.

ghost use Rattle.std.specs.Prelude.{None};

use crate::checks::check_equal;
use crate::decoders::{LARGEST, Numbers, limits_of, text_of};
use cwr_decode::{ReadFault, Reading, Refusal};
use cwr_devices::{DeviceFault, Source};
use cwr_shape::{Level, LimitKind, Reason};
use cwr_worked::lines::{ACK_0, GRH_ACK, HDR};
use std::process::Abort;

/// A reader that gives a text, and then another one again and again.
#[derive(Drop)]
struct Endless<'a> {
    left: &'a [u8],
    again: &'a [u8],
    shown: usize,
    /// How many bytes were consumed.
    consumed: usize,
}

impl Source for Endless<'_> {
    ghost remaining = { λ reader. None };

    ghost shown = { λ reader. reader.shown };

    ghost failures = { λ reader. 0 };

    fn fill(&mut self) -> Result<&[u8], DeviceFault> {
        if self.left.is_empty() {
            self.left = self.again;
        }
        self.shown = self.left.len();
        Ok(self.left)
    }

    fn consume(&mut self, count: usize) {
        self.shown -= count;
        self.consumed = self.consumed.saturating_add(count);
        self.left = self.left.get(count..).unwrap_or(b"");
    }
}

/// Adds one to the number of eight digits after a line's first three bytes.
fn count_on(line: &mut [u8]) {
    for back in 0..8 {
        let Some(digit) = line.get_mut(10_usize.saturating_sub(back)) else {
            return;
        };
        if *digit != b'9' {
            *digit = digit.saturating_add(1);
            return;
        }
        *digit = b'0';
    }
}

/// A thousand acknowledgements, numbered on.
fn acknowledgements(rt: &(impl Abort + AllocGlobal)) -> Vec<u8> {
    let mut line = text_of(rt, &[ACK_0]);
    let mut text = Vec::new(rt.alloc());
    for _ in 0..1000 {
        text.extend_from_slice(line.as_slice())
            .expect(rt, "no memory");
        count_on(line.as_mut_slice());
    }
    text
}

/// Reads item by item: how many come before the fault.
fn count_items<R: Source>(
    rt: &(impl Abort + AllocGlobal),
    numbers: Numbers,
    reader: &mut R,
) -> (usize, Option<ReadFault>) {
    let mut reading = Reading::new(rt.alloc(), limits_of(rt, numbers), reader);
    for items in 0..99 {
        if let Err(fault) = reading.next_item() {
            return (items, Some(fault));
        }
    }
    (99, None)
}

/// Reads a text and another one again and again, within limits: so many items come, the input is refused so, and so many
/// bytes are consumed.
fn check_endless(
    rt: &(impl Abort + AllocGlobal),
    numbers: Numbers,
    (left, again): (&[u8], &[u8]),
    (items, consumed): (usize, usize),
    refusal: Refusal,
) {
    let mut reader = Endless {
        left,
        again,
        shown: 0,
        consumed: 0,
    };
    let answer = count_items(rt, numbers, &mut reader);
    check_equal(rt, answer, (items, Some(ReadFault::Refused(refusal))));
    check_equal(rt, reader.consumed, consumed);
}

/// A refusal of a whole file at the first field.
const fn refused(rec: u32, reason: Reason) -> Refusal {
    Refusal {
        rec,
        field: 1,
        level: Level::E,
        reason,
    }
}

#[test]
fn spaces_for_ever(rt: HostRuntime) {
    let refusal = refused(1, Reason::UnknownKind);
    check_endless(&rt, LARGEST, (b"", &[b' '; 100]), (0, 1024), refusal);
}

#[test]
fn acknowledgements_for_ever(rt: HostRuntime) {
    let front = text_of(&rt, &[HDR, GRH_ACK]);
    let again = acknowledgements(&rt);
    let given = (front.as_slice(), again.as_slice());
    // HDR and GRH, and five transactions. The sixth is open when the seventh ACK is refused.
    let refusal = refused(9, Reason::Limit(LimitKind::Records));
    check_endless(&rt, (10, 1, 5), given, (7, 1260), refusal);
}
