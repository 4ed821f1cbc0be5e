//! Numbers that are kept with their digits, so that a cell is compared with a text and no number is written anew.

ghost use Rattle.std.specs.Prelude.{◌≡◌, ◌≢◌, ◌<◌, ◌+◌, IsTrue, length, take, drop, slice_index};
ghost use Rattle.cwr_fields.specs.Format.Bytes.{digits};

use crate::byte_runs::write_digits;

/// A number and its last eight digits.
#[derive(Clone, Copy)]
struct Spelled {
    number: u64,
    text: [u8; 8],
    ghost spells: { text ≡ digits 8 number },
}

/// The digits of a number, written one by one.
#[inline(never)]
fn eight_digits(number: u64) -> [u8; 8]
    ensures { result ≡ digits 8 number }
{
    let mut text = [b'0'; 8];
    write_digits(&mut text, number);
    text
}

/// The digits of a number below ten.
#[inline(always)]
fn one_digit(number: u64) -> [u8; 8]
    requires { number < 10 }
    ensures { result ≡ digits 8 number }
{
    let mut text = [b'0'; 8];
    text[7] = b'0' + number as u8;
    text
}

/// The digits of the next number, where the last one isn't a nine.
#[inline(always)]
fn next_digits(text: [u8; 8], number: u64) -> [u8; 8]
    requires spells { text ≡ digits 8 number }
    requires last { slice_index text 7 ≢ 57 }
    ensures { result ≡ digits 8 (number + 1) }
{
    let mut next = text;
    next[7] = text[7] + 1;
    next
}

/// The digits of the next number, where the last one is a nine and the one before it isn't.
#[inline(always)]
fn next_tens(text: [u8; 8], number: u64) -> [u8; 8]
    requires spells { text ≡ digits 8 number }
    requires nine { slice_index text 7 ≡ 57 }
    requires before { slice_index text 6 ≢ 57 }
    ensures { result ≡ digits 8 (number + 1) }
{
    let mut next = text;
    next[6] = text[6] + 1;
    next[7] = b'0';
    next
}

/// Whether two texts of eight bytes are the same, by one comparison.
#[inline(always)]
pub fn are_same(cell: &[u8], text: &[u8]) -> bool
    requires cell { length cell.now ≡ 8 }
    requires text { length text.now ≡ 8 }
    ensures { IsTrue result → cell.now ≡ text.now }
{
    match (cell.first_chunk::<8>(), text.first_chunk::<8>()) {
        (Some(cell), Some(text)) => u64::from_le_bytes(*cell) == u64::from_le_bytes(*text),
        _ => false,
    }
}

impl Spelled {
    /// Zero.
    fn zero() -> Spelled
        ensures { result.number ≡ 0 }
    {
        Spelled {
            number: 0,
            text: one_digit(0),
        }
    }

    /// The digits of another number, which is mostly the next one.
    #[inline(always)]
    fn digits_for(self, number: u64) -> [u8; 8]
        ensures { result ≡ digits 8 number }
    {
        if 0 < number && number - 1 == self.number {
            if self.text[7] != b'9' {
                return next_digits(self.text, self.number);
            }
            if self.text[6] != b'9' {
                return next_tens(self.text, self.number);
            }
        }
        if number < 10 {
            return one_digit(number);
        }
        eight_digits(number)
    }

    /// Takes another number, and answers whether the cell is its last eight digits.
    #[inline(always)]
    fn is_in(&mut self, cell: &[u8], number: u64) -> bool
        requires { length cell.now ≡ 8 }
        ensures { IsTrue result → cell.now ≡ digits 8 number }
    {
        if number != self.number {
            let text = self.digits_for(number);
            *self = Spelled { number, text };
        }
        are_same(cell, self.text.as_slice())
    }
}

/// Two numbers that are kept with their digits.
#[derive(Clone, Copy)]
pub struct SpelledPair {
    first: Spelled,
    second: Spelled,
}

impl SpelledPair {
    /// Two zeros.
    pub fn new() -> Self {
        SpelledPair {
            first: Spelled::zero(),
            second: Spelled::zero(),
        }
    }

    /// Takes other numbers, and answers whether sixteen bytes are the last eight digits of the one and then of the other.
    /// It is quick where both are mostly those before, or the next ones.
    #[inline(always)]
    pub fn are_in(&mut self, text: &[u8], first: u64, second: u64) -> bool
        requires { length text.now ≡ 16 }
        ensures { IsTrue result
            → (take 8 text.now ≡ digits 8 first) × (drop 8 text.now ≡ digits 8 second) }
    {
        let (front, back) = text.split_at(8);
        let is_first = self.first.is_in(front, first);
        let is_second = self.second.is_in(back, second);
        is_first & is_second
    }
}
