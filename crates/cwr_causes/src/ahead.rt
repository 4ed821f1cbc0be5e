//! How the numbers go on after a wrong one.

ghost use Rattle.std.specs.Prelude.{◌≡◌, ◌≤◌, [], false, IfOk, IfSome, OnErr, option_map};
ghost use Rattle.std.specs.Io.KnownBytes.{Keeps};
ghost use Rattle.cwr_causes.specs.Format.Lookings.{number_at, sequence_start};
ghost use Rattle.cwr_causes.specs.Format.NumbersAfter.{IsAhead, IsSeenAhead, begins_other, ends_numbers, followed_at, is_outside};
ghost use Rattle.cwr_causes.specs.Format.Trailing.{CountsRead, TakesMore};
ghost use Rattle.cwr_causes.specs.Steps.Walks.{Walks, WalksOver, WalksPiece, with_byte, with_end, with_front, with_line, with_number};

use crate::sequences::{RECORD_SEQUENCE, TRANSACTION_SEQUENCE, sequence_in};
use crate::truncated_words::kind_of;
use cwr_devices::{DeviceFault, Source};
use cwr_fields::Kind;

/// The byte that ends a line.
const LF: u8 = b'\n';

/// The bytes of a line up to the end of its sequences.
const FRONT: usize = 19;

/// The most pieces that are read to see how numbers go on.
const MOST_PIECES: u32 = 64;

/// Which numbers are followed.
#[derive(Clone, Copy, Debug, PartialEq, Eq)]
pub(crate) enum Sequence {
    /// Those of the transactions of a group.
    Transactions,
    /// Those of the records of a transaction.
    Records,
}

/// How the numbers after a wrong one go on, as far as they were read.
#[derive(Clone, Copy, Debug, PartialEq, Eq)]
pub struct Ahead {
    /// How many there are.
    pub count: u64,
    /// The first of them.
    pub first: Option<u64>,
    /// Whether each is one more than the one before.
    pub goes_on: bool,
}

/// The sequence that a field of the kind is, and where that stands in a line: the first byte, from 0.
fn sequence_of(kind: Kind, field: u8) -> Option<(Sequence, usize)>
    ensures start { option_map (λ s. s.1) result ≡ sequence_start kind field }
    ensures which { IfSome result (λ s. s.0 ≡ followed_at field) }
{
    match kind {
        Kind::Hdr | Kind::Grh | Kind::Grt | Kind::Trl => None,
        Kind::Agr | Kind::Nwr | Kind::Rev | Kind::Ack if field == 2 => Some((
            Sequence::Transactions,
            TRANSACTION_SEQUENCE,
        )),
        _ if field == 3 => Some((Sequence::Records, RECORD_SEQUENCE)),
        _ => None,
    }
}

/// The sequence whose number at that field of a line is wrong, and that number.
pub(crate) fn sequence_at(kind: Option<Kind>, field: u8, line: &[u8]) -> Option<(Sequence, u64)>
    ensures number { option_map (λ s. s.1) result ≡ number_at kind field line.now }
    ensures which { IfSome result (λ s. s.0 ≡ followed_at field) }
{
    let (sequence, start) = sequence_of(kind?, field)?;
    match sequence_in(line, start) {
        Some(number) => Some((sequence, number)),
        None => None,
    }
}

/// Whether a line of the kind, or of none, stands in no transaction.
pub(crate) fn is_outside(kind: Option<Kind>) -> bool
    ensures { result ≡ is_outside kind }
{
    matches!(
        kind,
        None | Some(Kind::Hdr | Kind::Grh | Kind::Grt | Kind::Trl)
    )
}

/// Whether the records of another transaction begin with that sequence of a record.
fn begins_other(sequence: Sequence, own: Option<u64>) -> bool
    ensures { result ≡ begins_other sequence own }
{
    match sequence {
        Sequence::Transactions => false,
        Sequence::Records => own == Some(0),
    }
}

/// Whether the numbers have ended on the line with that front.
fn ends_numbers(sequence: Sequence, front: &[u8]) -> bool
    ensures { result ≡ ends_numbers sequence front.now }
{
    front.len() < FRONT
        || is_outside(kind_of(front))
        || begins_other(sequence, sequence_in(front, RECORD_SEQUENCE))
}

/// The numbers are read line by line.
#[derive(Clone, Copy, Debug)]
struct Walk {
    sequence: Sequence,
    /// The number that goes on.
    next: u64,
    ahead: Ahead,
    /// The front of the line in hand.
    front: [u8; FRONT],
    /// How many of its bytes were read.
    filled: usize,
    /// Whether the numbers have ended.
    ended: bool,
}

impl Walk {
    /// Nothing was read after the number.
    fn new(sequence: Sequence, number: u64) -> Walk
        ensures sequence { result.sequence ≡ sequence }
        ensures going { result.ended ≡ false }
        ensures empty { result.filled ≡ 0 }
        ensures walks { Walks number [] result }
    {
        Walk {
            sequence,
            next: number.saturating_add(1),
            ahead: Ahead {
                count: 0,
                first: None,
                goes_on: true,
            },
            front: [0; FRONT],
            filled: 0,
            ended: false,
        }
    }

    /// Follows a number of the sequence.
    fn follow(&mut self, number: Option<u64>)
        ensures { self.new ≡ with_number self.old number }
    {
        if self.ahead.count == 0 {
            self.ahead.first = number;
        }
        self.ahead.count = self.ahead.count.saturating_add(1);
        self.ahead.goes_on = self.ahead.goes_on && number == Some(self.next);
        self.next = self.next.saturating_add(1);
    }

    /// Looks at the line with that front.
    fn take_line(&mut self, front: &[u8])
        ensures { self.new ≡ with_line self.old front.now }
    {
        if ends_numbers(self.sequence, front) {
            self.ended = true;
            return;
        }
        let record = sequence_in(front, RECORD_SEQUENCE);
        match self.sequence {
            Sequence::Transactions => {
                if record == Some(0) {
                    self.follow(sequence_in(front, TRANSACTION_SEQUENCE));
                }
            }
            Sequence::Records => self.follow(record),
        }
    }

    /// Looks at the line whose front was read.
    fn end_line(&mut self)
        requires { self.old.filled ≤ 19 }
        ensures { self.new ≡ with_end self.old }
    {
        let front = self.front;
        self.take_line(&front[..self.filled]);
        self.filled = 0;
    }

    /// Reads a byte of a line.
    fn take_front(&mut self, byte: u8)
        ensures { self.new ≡ with_front self.old byte }
    {
        if self.filled < FRONT {
            self.front[self.filled] = byte;
            self.filled += 1;
        }
    }

    /// Reads a byte more.
    fn take(&mut self, byte: u8)
        requires { self.old.filled ≤ 19 }
        ensures { self.new ≡ with_byte self.old byte }
    {
        if byte == LF {
            self.end_line();
        } else {
            self.take_front(byte);
        }
    }

    /// Reads a piece more, up to where the numbers have ended.
    fn take_piece(&mut self, piece: &[u8])
        requires { self.old.filled ≤ 19 }
        ensures { WalksOver piece.now self.old self.new }
    {
        for byte in piece {
            if !self.ended {
                self.take(*byte);
            }
        }
    }
}

/// Takes what the reader shows next, and reads it. The answer is whether that was the end.
fn follow_piece<R: Source>(reader: &mut R, walk: &mut Walk) -> Result<bool, DeviceFault>
    requires { walk.old.filled ≤ 19 }
    ensures ok { IfOk result
        (WalksPiece (R.remaining reader.old) (R.remaining reader.new) walk.old walk.new) }
    ensures err { OnErr result (TakesMore (R.remaining reader.old) (R.remaining reader.new)) }
    ensures failures { CountsRead result (R.failures reader.old) (R.failures reader.new) }
{
    let piece = reader.fill()?;
    walk.take_piece(piece);
    let count = piece.len();
    reader.consume(count);
    Ok(count == 0)
}

/// Reads how the numbers of a sequence go on after that number, on the lines after the one in hand.
pub(crate) fn look_ahead<R: Source>(
    reader: &mut R,
    sequence: Sequence,
    number: u64,
) -> Result<Ahead, DeviceFault>
    ensures finds { IfOk result
        (IsAhead sequence number (R.remaining reader.old) (R.remaining reader.new)) }
    ensures taken { TakesMore (R.remaining reader.old) (R.remaining reader.new) }
    ensures failures { CountsRead result (R.failures reader.old) (R.failures reader.new) }
{
    let mut walk = Walk::new(sequence, number);
    for _pieces in 0..MOST_PIECES {
        let at_end = follow_piece(reader, &mut walk)?;
        if at_end || walk.ended {
            return Ok(walk.ahead);
        }
    }
    Ok(walk.ahead)
}

/// How the numbers of a sequence go on after that number, on what the reader shows next of the lines after the one in hand. Nothing is
/// taken.
pub(crate) fn peek_ahead<R: Source>(
    reader: &mut R,
    sequence: Sequence,
    number: u64,
) -> Result<Ahead, DeviceFault>
    ensures sees { IfOk result (IsSeenAhead sequence number (R.remaining reader.old)) }
    ensures kept { Keeps (R.remaining reader.old) (R.remaining reader.new) }
    ensures failures { CountsRead result (R.failures reader.old) (R.failures reader.new) }
{
    let mut walk = Walk::new(sequence, number);
    walk.take_piece(reader.fill()?);
    Ok(walk.ahead)
}
