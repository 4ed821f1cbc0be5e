//! The sequences of a line and of the line before it.

ghost use Rattle.std.specs.Prelude.{◌≡◌, IfSome, option_and_then, option_map};
ghost use Rattle.cwr_causes.specs.Format.Misplacements.{numbers_in};
ghost use Rattle.cwr_causes.specs.Format.Sequences.{HasSequence, capped_number, sequence_in, start_of_sequence};

use cwr_fields::spells;

/// How many digits a sequence has.
const DIGITS: usize = 8;

/// Where a line has its transaction's sequence, and where its own: the first byte, from 0.
pub(crate) const TRANSACTION_SEQUENCE: usize = 3;

pub(crate) const RECORD_SEQUENCE: usize = 11;

/// The sequences that stand in two lines, one after the other.
#[derive(Clone, Copy, Debug)]
pub(crate) struct Sequences {
    /// That of the line before, where it has one that is known.
    pub before: Option<u64>,
    /// That of the line.
    pub here: Option<u64>,
}

/// The sequences of a record in a transaction.
#[derive(Clone, Copy, Debug, PartialEq, Eq)]
pub(crate) struct RecordNumbers {
    /// That of its transaction.
    pub transaction: u64,
    /// Its own.
    pub own: u64,
}

/// Where the sequence of that field stands in a line: the first byte, from 0.
pub(crate) fn start_of_sequence(field: u8) -> usize
    ensures { result ≡ start_of_sequence field }
{
    match field {
        2 => TRANSACTION_SEQUENCE,
        _ => RECORD_SEQUENCE,
    }
}

/// The number that digits write, or the largest one of 64 bits where that is larger.
pub(crate) fn number_in(digits: &[u8]) -> u64
    ensures { result ≡ capped_number digits.now }
{
    let mut number: u64 = 0;
    for digit in digits {
        number = number
            .saturating_mul(10)
            .saturating_add(u64::from(digit.saturating_sub(b'0')));
    }
    number
}

/// The sequence that stands in a line from that byte on, from 0. `None` where no eight digits stand there.
#[tactic(auto, using(crate::proofs::lemmas::ShortLines::none_in_short))]
pub(crate) fn sequence_in(line: &[u8], start: usize) -> Option<u64>
    ensures value { result ≡ sequence_in start line.now }
    ensures stands { IfSome result (λ n. HasSequence start n line.now) }
{
    let digits = line.get(start..start.saturating_add(DIGITS))?;
    let number = number_in(digits);
    if spells(digits, number) {
        Some(number)
    } else {
        None
    }
}

/// The sequences that stand in a line and in the line before it from that byte on, from 0.
pub(crate) fn sequences_of(line: &[u8], before: Option<&[u8]>, start: usize) -> Sequences
    ensures here { result.here ≡ sequence_in start line.now }
    ensures before { result.before
        ≡ option_and_then (sequence_in start) (option_map (λ b. b.now) before.entry) }
{
    let here = sequence_in(line, start);
    match before {
        Some(before) => Sequences {
            before: sequence_in(before, start),
            here,
        },
        None => Sequences { before: None, here },
    }
}

/// The sequences of a record in a transaction that stand in a line, where both do.
pub(crate) fn numbers_in(line: &[u8]) -> Option<RecordNumbers>
    ensures { result ≡ numbers_in line.now }
{
    let transaction = sequence_in(line, TRANSACTION_SEQUENCE)?;
    let own = sequence_in(line, RECORD_SEQUENCE)?;
    Some(RecordNumbers { transaction, own })
}
