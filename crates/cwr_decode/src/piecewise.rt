//! A whole run over a text in pieces.

ghost use Rattle.std.specs.Prelude.{◌≡◌, ◌≤◌, ◌⊎◌, ℕ, List, length, Some, Ok, Err, IfErr};
ghost use Rattle.cwr_judge.specs.declared.refusals.Refusal.{Refusal};
ghost use Rattle.cwr_judge.specs.Format.Ends.{IsAccepted, IsRefused, IsTruncated};
ghost use Rattle.cwr_values.specs.Format.Values.{TransmissionValue};
ghost use Rattle.cwr_decode.specs.Format.Headline.{Means, text_in};
ghost use Rattle.cwr_decode.specs.Steps.Runs.{StopsText};

use crate::readings::ReadFault;
use crate::whole::read_all;
use cwr_devices::{DeviceFault, Source};
use cwr_shape::Limits;
use cwr_values::Transmission;
use std::alloc::Global;

/// A text in pieces of any size, the empty one too, as a reader that never fails.
#[derive(Drop)]
struct Pieces<'a> {
    /// What is left of the piece at hand.
    left: &'a [u8],
    /// The pieces after it.
    pieces: &'a [&'a [u8]],
    /// How many bytes of what is left were shown.
    shown: usize,
    ghost within: { shown ≤ length left.now },
}

impl<'a> Pieces<'a> {
    ghost use Rattle.cwr_decode.specs.Steps.PiecesLeft.{text_left};

    /// All pieces, one after another.
    fn new(pieces: &'a [&'a [u8]]) -> Pieces<'a>
        ensures { text_left result ≡ text_in pieces.now }
    {
        Pieces {
            left: &[],
            pieces,
            shown: 0,
        }
    }

    /// Goes to the next piece that isn't empty.
    fn skip(&mut self)
        ensures text { text_left self.new ≡ text_left self.old }
        ensures end { length self.new.left.now ≡ 0 → length self.new.pieces.now ≡ 0 }
    {
        while self.left.is_empty() {
            match self.pieces {
                [first, rest @ ..] => {
                    self.shown = 0;
                    self.left = first;
                    self.pieces = rest;
                }
                [] => return,
            }
        }
    }
}

impl Source for Pieces<'_> {
    ghost use Rattle.cwr_decode.specs.Steps.PiecesLeft.{text_left};

    ghost remaining = { λ p. Some (text_left p) };

    ghost shown = { λ p. p.shown };

    ghost failures = { λ p. 0 };

    fn fill(&mut self) -> Result<&[u8], DeviceFault> {
        self.skip();
        self.shown = self.left.len();
        Ok(self.left)
    }

    fn consume(&mut self, count: usize) {
        self.shown -= count;
        self.left = &self.left[count..];
    }
}

/// Reads a whole transmission within the limits from a text that comes in pieces of any size, the empty one too. How it
/// is cut changes nothing: the answer is the end of the pieces put together.
///
/// It answers the transmission exactly where the text is accepted as that one, `ReadFault::Refused` exactly where it is
/// refused so, and `ReadFault::Truncated` exactly where it is truncated, unless memory was refused
/// (`ReadFault::Memory`). `ReadFault::Reader` isn't answered. What stands after the transmission isn't judged.
pub fn read_pieces(
    alloc: Global,
    limits: Limits,
    pieces: &[&[u8]],
) -> Result<Transmission, ReadFault>
    ensures means { Means limits (text_in pieces.now) result }
    ensures accepted { (v : TransmissionValue) (n : ℕ) → IsAccepted limits (text_in pieces.now) v n
        → (result ≡ Ok v) ⊎ (result ≡ Err ReadFault.Memory) }
    ensures refused { (refusal : Refusal) → IsRefused limits (text_in pieces.now) refusal
        → (result ≡ Err (ReadFault.Refused refusal)) ⊎ (result ≡ Err ReadFault.Memory) }
    ensures truncated { (records : ℕ) → IsTruncated limits (text_in pieces.now) records
        → (result ≡ Err (ReadFault.Truncated records)) ⊎ (result ≡ Err ReadFault.Memory) }
    // Memory was refused with a record that was accepted within a transaction, or for what is made of the items.
    ensures stops { IfErr result (λ fault. StopsText limits fault (text_in pieces.now)) }
{
    let mut reader = Pieces::new(pieces);
    read_all(alloc, limits, &mut reader)
}
