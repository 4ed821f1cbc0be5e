//! What stands after a transmission.

ghost use Rattle.std.specs.Prelude.{◌≡◌, ◌+◌, ◌-◌, ◌^◌, ◌<◌, ◌∷◌, ◌&&◌, [], true, false, min, length, IfOk, OnErr};
ghost use Rattle.std.specs.List.{list_all};
ghost use Rattle.cwr_causes.specs.Format.Trailing.{CountsRead, IsTrailing, TakesMore, is_filler};
ghost use Rattle.cwr_causes.specs.Steps.Trailing.{TakesPiece, begins_with, byte_with};

use cwr_devices::{DeviceFault, Source};

/// The most pieces that are read of what stands after a transmission.
const MOST_PIECES: u32 = 1_000_000;

/// What stands after a transmission.
#[derive(Clone, Copy, Debug, PartialEq, Eq)]
pub struct Trailing {
    /// How many bytes were read.
    pub bytes: u64,
    /// Whether they were read up to the end.
    pub is_all: bool,
    /// The first three of them; where there are fewer, zeros follow.
    pub begins: [u8; 3],
    /// Whether each of them fills up a file: a space, a tab, a line's end, a zero or DOS's end mark.
    pub is_filler: bool,
}

/// Whether the byte only fills up a file.
fn is_filler(byte: u8) -> bool
    ensures { result ≡ is_filler byte }
{
    matches!(byte, 0 | b'\t' | b'\n' | b'\r' | 0x1a | b' ')
}

/// Whether each byte does.
fn are_filler(bytes: &[u8]) -> bool
    ensures { result ≡ list_all is_filler bytes.now }
{
    bytes.iter().all(|byte| is_filler(*byte))
}

impl Trailing {
    /// Nothing was read.
    fn new() -> Trailing
        ensures bytes { result.bytes ≡ 0 }
        ensures begins { result.begins ≡ 0 ∷ 0 ∷ 0 ∷ [] }
        ensures goes_on { result.is_all ≡ false }
        ensures filler { result.is_filler ≡ true }
    {
        Trailing {
            bytes: 0,
            is_all: false,
            begins: [0; 3],
            is_filler: true,
        }
    }

    /// The byte at one of the first three places once those of a piece follow, and 0 where there is none.
    fn byte_with(&self, piece: &[u8], place: usize) -> u8
        requires { place < 3 }
        ensures { result ≡ byte_with self.now.bytes self.now.begins piece.now place }
    {
        let count = self.bytes;
        if (place as u64) < count {
            self.begins[place]
        } else {
            piece.get(place - count as usize).copied().unwrap_or(0)
        }
    }

    /// The first three bytes once those of a piece follow.
    fn begins_with(&self, piece: &[u8]) -> [u8; 3]
        ensures { result ≡ begins_with self.now.bytes self.now.begins piece.now }
    {
        [
            self.byte_with(piece, 0),
            self.byte_with(piece, 1),
            self.byte_with(piece, 2),
        ]
    }

    /// Counts a piece more.
    fn add(&mut self, piece: &[u8])
        ensures bytes { self.new.bytes ≡ min (self.old.bytes + length piece.now) (2 ^ 64 - 1) }
        ensures begins { self.new.begins ≡ begins_with self.old.bytes self.old.begins piece.now }
        ensures is_all { self.new.is_all ≡ self.old.is_all }
        ensures filler { self.new.is_filler ≡ (self.old.is_filler && list_all is_filler piece.now) }
    {
        self.begins = self.begins_with(piece);
        self.is_filler = self.is_filler && are_filler(piece);
        self.bytes = self.bytes.saturating_add(piece.len() as u64);
    }
}

/// Takes what the reader shows next, and counts it. The answer is whether that was the end.
fn take_piece<R: Source>(reader: &mut R, found: &mut Trailing) -> Result<bool, DeviceFault>
    ensures ok { IfOk result
        (TakesPiece (R.remaining reader.old) (R.remaining reader.new) found.old found.new) }
    ensures err { OnErr result (TakesMore (R.remaining reader.old) (R.remaining reader.new)) }
    ensures failures { CountsRead result (R.failures reader.old) (R.failures reader.new) }
{
    let piece = reader.fill()?;
    found.add(piece);
    let count = piece.len();
    reader.consume(count);
    Ok(count == 0)
}

/// Reads what the reader has left, up to its end or a million pieces, and counts the bytes.
pub fn read_trailing<R: Source>(reader: &mut R) -> Result<Trailing, DeviceFault>
    ensures taken { TakesMore (R.remaining reader.old) (R.remaining reader.new) }
    ensures counted { IfOk result (IsTrailing (R.remaining reader.old) (R.remaining reader.new)) }
    ensures failures { CountsRead result (R.failures reader.old) (R.failures reader.new) }
{
    let mut found = Trailing::new();
    for _pieces in 0..MOST_PIECES {
        if take_piece(reader, &mut found)? {
            found.is_all = true;
            return Ok(found);
        }
    }
    Ok(found)
}
