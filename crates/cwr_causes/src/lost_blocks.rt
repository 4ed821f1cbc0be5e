//! Lines that are made of the front of one and the rest of another: what stood between them was lost.

ghost use Rattle.std.specs.Prelude.{◌≡◌, ◌++◌, option_map, string_bytes, OnOk};
ghost use Rattle.cwr_causes.specs.Format.LostBlocks.{goes_on_with, is_further, later_record, lost_block, lost_block_line};
ghost use Rattle.cwr_causes.specs.Format.Misplacements.{numbers_by};
ghost use Rattle.cwr_causes.specs.Format.Sequences.{sequence_in};

use crate::sequences::{RecordNumbers, sequence_in};
use crate::texts::add_label;
use std::alloc::AllocError;
use std::fmt::Write;

/// Whether these are the sequences of a further record of the same transaction.
fn is_further(here: RecordNumbers, there: Option<RecordNumbers>) -> bool
    ensures { result ≡ is_further here there }
{
    match there {
        Some(there) => there.transaction == here.transaction && there.own > here.own,
        None => false,
    }
}

/// The sequences with which a text begins.
fn numbers_first(text: &[u8]) -> Option<RecordNumbers>
    ensures { result ≡ numbers_by (sequence_in 0 text.now) (sequence_in 8 text.now) }
{
    let transaction = sequence_in(text, 0)?;
    let own = sequence_in(text, 8)?;
    Some(RecordNumbers { transaction, own })
}

/// Whether a text begins with the last letter of a record type, and with such sequences behind it.
fn goes_on_with(here: RecordNumbers, text: &[u8]) -> bool
    ensures { result ≡ goes_on_with here text.now }
{
    match text {
        [letter, behind @ ..] => {
            letter.is_ascii_uppercase() && is_further(here, numbers_first(behind))
        }
        [] => false,
    }
}

/// What a line with those sequences has from the first place on at which it does so.
fn later_record(here: RecordNumbers, line: &[u8]) -> Option<&[u8]>
    ensures { option_map (λ found. found.now) result ≡ later_record here line.now }
{
    let mut rest = line;
    while let [_, behind @ ..] = rest {
        if goes_on_with(here, rest) {
            return Some(rest);
        }
        rest = behind;
    }
    None
}

/// The same of a line that has sequences.
pub(crate) fn lost_block(here: Option<RecordNumbers>, line: &[u8]) -> Option<&[u8]>
    ensures { option_map (λ found. found.now) result ≡ lost_block here line.now }
{
    match here {
        Some(here) => later_record(here, line),
        None => None,
    }
}

/// Adds that such sequences begin with that byte of the line, from 1.
#[tactic(auto, unfolding(crate::specs::Format::LostBlocks::lost_block_line))]
pub(crate) fn add_lost_block(text: &mut String, first: u64) -> Result<(), AllocError>
    ensures { OnOk result (string_bytes text.new ≡ string_bytes text.old ++ lost_block_line first) }
{
    add_label(text, "note")?;
    writeln!(
        text,
        "the sequences of a later record of this transaction stand from byte {first} on: the front of this line and the rest of that one came together, and what stood between them is lost; get the file again"
    )
}
