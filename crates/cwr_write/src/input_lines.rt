//! Lines of an input.

ghost use Rattle.std.specs.Prelude.{◌≡◌, ◌<◌, ◌≤◌, ◌+◌, ◌++◌, [], length, take, slice_index, IfErr, IfOk, IsFalse, MatchOption, OnOk};
ghost use Rattle.std.specs.List.{list_any};
ghost use Rattle.cwr_lines.specs.Format.Lines.{is_lf};
ghost use Rattle.cwr_write.specs.Format.Imports.{is_blank_line};
ghost use Rattle.cwr_write.specs.Steps.Lines.{ExceedsWith, TakesLineOf, TakesPart};
ghost use Rattle.cwr_write.specs.Steps.Taking.{CountsReading, IsUnfailed};

use cwr_devices::Source;
use std::alloc::Global;

/// The byte that ends a line.
const LF: u8 = b'\n';

/// Why no line was read.
#[derive(Clone, Copy, Debug)]
pub(crate) enum ReadFault {
    /// The reader failed.
    Reader,
    /// Memory was refused.
    Memory,
    /// The line has more bytes than it may have.
    TooLong,
}

/// Where the first line feed stands.
fn line_feed(piece: &[u8]) -> Option<usize>
    ensures { MatchOption result (IsFalse (list_any is_lf piece.now)) (λ at. (at < length piece.now)
        × IsFalse (list_any is_lf (take at piece.now)) × (slice_index piece.now at ≡ 10)) }
{
    memchr::memchr(LF, piece)
}

/// Adds bytes to a line, which may have so many.
fn add(line: &mut Vec<u8>, bytes: &[u8], most: usize) -> Result<(), ReadFault>
    requires { length line.old.items ≤ most }
    ensures unfailed { IsUnfailed result }
    ensures added { OnOk result (line.new.items ≡ line.old.items ++ bytes.now) }
    ensures short { OnOk result (length line.new.items ≤ most) }
    ensures long { IfErr result
        (λ fault. fault ≡ ReadFault.TooLong → most < length line.old.items + length bytes.now) }
{
    if bytes.len() > most.saturating_sub(line.len()) {
        return Err(ReadFault::TooLong);
    }
    match line.extend_from_slice(bytes) {
        Ok(()) => Ok(()),
        Err(_) => Err(ReadFault::Memory),
    }
}

/// Takes what comes next of a line, which may have so many bytes. `true` where it has ended.
fn take_piece<R: Source>(
    reader: &mut R,
    line: &mut Vec<u8>,
    most: usize,
) -> Result<Option<bool>, ReadFault>
    requires { length line.old.items ≤ most }
    ensures failures { CountsReading result (R.failures reader.old) (R.failures reader.new) }
    ensures taken { IfOk result (λ ended. TakesPart (R.remaining reader.old)
        (R.remaining reader.new) line.old.items line.new.items ended) }
    ensures short { OnOk result (length line.new.items ≤ most) }
    ensures long { IfErr result (λ fault. fault ≡ ReadFault.TooLong
        → ExceedsWith most (R.remaining reader.old) line.old.items) }
{
    let piece = match reader.fill() {
        Ok(piece) => piece,
        Err(_) => return Err(ReadFault::Reader),
    };
    if piece.is_empty() {
        return Ok(None);
    }
    match line_feed(piece) {
        Some(at) => {
            add(line, &piece[..at], most)?;
            reader.consume(at + 1);
            Ok(Some(true))
        }
        None => {
            let count = piece.len();
            add(line, piece, most)?;
            reader.consume(count);
            Ok(Some(false))
        }
    }
}

/// Reads the next line, without its line feed. It may have so many bytes. `false` at the end of the input, where no line is left.
pub(crate) fn next_line<R: Source>(
    reader: &mut R,
    line: &mut Vec<u8>,
    most: usize,
) -> Result<bool, ReadFault>
    ensures failures { CountsReading result (R.failures reader.old) (R.failures reader.new) }
    ensures taken { IfOk result
        (TakesLineOf (R.remaining reader.old) (R.remaining reader.new) line.new.items) }
    ensures short { OnOk result (length line.new.items ≤ most) }
    ensures long { IfErr result
        (λ fault. fault ≡ ReadFault.TooLong → ExceedsWith most (R.remaining reader.old) []) }
{
    line.clear();
    for _ in 0..u64::MAX {
        match take_piece(reader, line, most)? {
            Some(true) => return Ok(true),
            Some(false) => {}
            None => return Ok(!line.is_empty()),
        }
    }
    // No memory has a line of so many pieces.
    Err(ReadFault::Memory)
}

/// Whether a line says nothing.
pub(crate) fn is_blank(line: &[u8]) -> bool
    ensures { result ≡ is_blank_line line.now }
{
    for b in line {
        if *b != b' ' && *b != b'\t' && *b != b'\r' {
            return false;
        }
    }
    true
}
