//! The first bytes of an input, and what HDR says in them.

ghost use Rattle.std.specs.Prelude.{◌≡◌, ◌≤◌, ◌<◌, ℕ, List, [], ◌++◌, length, slice_index, take};
ghost use Rattle.std.specs.List.{position};
ghost use Rattle.cwr_files.specs.Format.Fronts.{IsCharacterSetOf, byte_of_set, ends_line, line_of};

use arrayvec::ArrayVec;
use std::marker::Model;

/// How many bytes are kept: those of HDR.
const KEPT: usize = 101;

/// Where HDR's character set begins in its line.
const BEGIN: usize = 86;

/// How many bytes it has.
pub(crate) const CHARACTER_SET: usize = 15;

/// The first bytes of an input.
#[derive(Debug, Drop)]
pub(crate) struct Front {
    bytes: ArrayVec<u8, KEPT>,
}

impl Model for Front {
    ghost use Rattle.std.specs.Prelude.{ℕ, List};

    ghost Value = { List ℕ };

    ghost view = { λ f. f.bytes.items };
}

/// Where the first line ends, from 0.
fn end_of_line(front: &[u8]) -> Option<usize>
    ensures { result ≡ position ends_line front.now }
{
    front.iter().position(|b| *b == b'\r' || *b == b'\n')
}

/// The bytes of the first line, without those that end it.
fn line_of(front: &[u8]) -> &[u8]
    ensures { result.now ≡ line_of front.now }
{
    match end_of_line(front) {
        Some(end) => &front[..end],
        None => front,
    }
}

/// The byte of HDR's line in which place `i` of its character set stands; a space past the line's end, and in other lines.
fn byte_of_set(line: &[u8], i: usize) -> u8
    requires { i ≤ CHARACTER_SET }
    ensures { result ≡ byte_of_set line.now i }
{
    match line.get(BEGIN + i) {
        Some(byte) if line.starts_with(b"HDR") => *byte,
        _ => b' ',
    }
}

/// The cell of the character set in HDR's line; blank in any other.
fn cell_of(line: &[u8]) -> [u8; CHARACTER_SET]
    ensures { (i : ℕ) → i < CHARACTER_SET → slice_index result i ≡ byte_of_set line.now i }
{
    let mut cell = [b' '; CHARACTER_SET];
    for i in 0..CHARACTER_SET {
        cell[i] = byte_of_set(line, i);
    }
    cell
}

impl Front {
    /// Nothing was read.
    pub(crate) fn new() -> Front
        ensures { result ≡ [] }
    {
        Front {
            bytes: ArrayVec::new(),
        }
    }

    /// These bytes were read next.
    pub(crate) fn take(&mut self, bytes: &[u8])
        ensures { (before : List ℕ) → self.old ≡ take KEPT before
            → self.new ≡ take KEPT (before ++ bytes.now) }
    {
        let room = KEPT - self.bytes.len();
        let _fits = self
            .bytes
            .try_extend_from_slice(&bytes[..room.min(bytes.len())]);
    }

    /// The cell in which HDR names its character set; blank where it doesn't stand in them.
    pub(crate) fn character_set(&self) -> [u8; CHARACTER_SET]
        ensures { IsCharacterSetOf self.now result }
    {
        cell_of(line_of(self.bytes.as_slice()))
    }
}
