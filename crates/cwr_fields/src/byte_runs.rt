//! What runs of bytes are made of: spaces, control bytes, digits.

ghost use Rattle.std.specs.Prelude.{◌≡◌, ◌↔◌, ◌≤◌, ◌<◌, ◌^◌, IsSome, IfSome, IsTrue, length, position, take, drop, replicate, ◌+◌, ◌++◌};
ghost use Rattle.cwr_fields.specs.Format.Bytes.{is_spaces, is_control, has_control, are_digits, number_of, trimmed, digits};

use crate::lanes::{LANES, SeenLanes, has_control_in_lanes};
use crate::spelled::are_same;

/// Whether every byte is a space.
#[inline(always)]
pub fn is_spaces(cell: &[u8]) -> bool
    ensures { result ≡ is_spaces cell.now }
{
    cell.iter().all(|b| *b == b' ')
}

/// Whether some byte of a short text is a control byte.
#[inline(always)]
fn has_control_one_by_one(text: &[u8]) -> bool
    ensures { result ≡ has_control text.now }
{
    let mut found = false;
    for byte in text {
        found |= (*byte < 32) | (*byte == 127);
    }
    found
}

/// Whether some byte of a text that fills the lanes is a control byte. It goes over all bytes without a branch, and asks them
/// at once; its first step, at the end of the text, overlaps the last one.
#[inline(always)]
fn has_control_by_lanes(text: &[u8]) -> bool
    requires { 32 ≤ length text.now }
    ensures { result ≡ has_control text.now }
{
    let last = text.len() - LANES;
    let mut seen = SeenLanes::of(text, last);
    let mut at = 0;
    while at < last {
        seen = seen.with(text, at);
        at += LANES;
    }
    seen.has_control()
}

/// Whether some byte is a control byte: one of 0 to 31, or 127.
#[inline(always)]
pub(crate) fn has_control(text: &[u8]) -> bool
    ensures { result ≡ has_control text.now }
{
    if text.len() < LANES {
        has_control_one_by_one(text)
    } else {
        has_control_by_lanes(text)
    }
}

/// Whether every byte is a digit.
#[inline(always)]
pub(crate) fn are_digits(cell: &[u8]) -> bool
    ensures { result ≡ are_digits cell.now }
{
    cell.iter().all(|b| 48 <= *b && *b <= 57)
}

/// The number that at most ten digits write. `None` where some byte is no digit.
#[inline(always)]
pub(crate) fn number_in(cell: &[u8]) -> Option<u64>
    requires { length cell.now ≤ 10 }
    ensures some { IsSome result ↔ IsTrue (are_digits cell.now) }
    ensures value { IfSome result (λ n. (n ≡ number_of cell.now) × (n < 10 ^ length cell.now)) }
{
    let mut number = 0;
    for byte in cell {
        if !byte.is_ascii_digit() {
            return None;
        }
        number = 10 * number + u64::from(*byte - b'0');
    }
    Some(number)
}

/// The three numbers that digits write, the first in so many digits and the others in two each. `None` where some byte
/// is no digit.
pub(crate) fn three_numbers(first: usize, cell: &[u8]) -> Option<(u64, u64, u64)>
    requires few { first ≤ 4 }
    requires width { length cell.now ≡ first + 4 }
    ensures some { IsSome result ↔ IsTrue (are_digits cell.now) }
    ensures first { IfSome result
        (λ x. (x.0 ≡ number_of (take first cell.now)) × (x.0 < 10 ^ first)) }
    ensures second { IfSome result
        (λ x. (x.1 ≡ number_of (take 2 (drop first cell.now))) × (x.1 < 100)) }
    ensures third { IfSome result
        (λ x. (x.2 ≡ number_of (take 2 (drop (first + 2) cell.now))) × (x.2 < 100)) }
{
    let number = number_in(&cell[..first])?;
    let second = number_in(&cell[first..first + 2])?;
    let third = number_in(&cell[first + 2..])?;
    Some((number, second, third))
}

/// Writes the number's last decimal digits, as many as the cell is wide, with leading zeros.
pub(crate) fn write_digits(cell: &mut [u8], number: u64)
    ensures { cell.new ≡ digits (length cell.old) number }
{
    let mut rest = number;
    let mut at = cell.len();
    while at > 0 {
        at -= 1;
        cell[at] = b'0' + (rest % 10) as u8;
        rest /= 10;
    }
}

/// Writes three numbers, the first in so many digits and the others in two each.
pub(crate) fn write_three(cell: &mut [u8], first: usize, numbers: (u64, u64, u64))
    requires { length cell.old ≡ first + 4 }
    ensures { cell.new ≡ digits first numbers.0 ++ digits 2 numbers.1 ++ digits 2 numbers.2 }
{
    let (head, rest) = cell.split_at_mut(first);
    let (middle, last) = rest.split_at_mut(2);
    write_digits(head, numbers.0);
    write_digits(middle, numbers.1);
    write_digits(last, numbers.2);
}

/// Where the first control byte of a short text stands, from 0. `None` where there is none.
fn first_control_one_by_one(text: &[u8]) -> Option<usize>
    ensures { result ≡ position is_control text.now }
{
    text.iter().position(|b| *b < 32 || *b == 127)
}

/// Where the first control byte stands, from 0: one of 0 to 31, or 127. `None` where there is none.
pub fn first_control(text: &[u8]) -> Option<usize>
    ensures { result ≡ position is_control text.now }
{
    let mut at = 0;
    while text.len() - at >= LANES {
        if has_control_in_lanes(text, at) {
            break;
        }
        at += LANES;
    }
    match first_control_one_by_one(&text[at..]) {
        Some(place) => Some(at + place),
        None => None,
    }
}

/// Whether sixteen bytes are spaces, by two comparisons.
#[inline(always)]
fn are_sixteen_spaces(text: &[u8]) -> bool
    requires { length text.now ≡ 16 }
    ensures { IsTrue result → text.now ≡ replicate 16 32 }
{
    let (front, back) = text.split_at(8);
    are_same(front, b"        ") && are_same(back, b"        ")
}

/// Whether as many bytes as fill the lanes are spaces, by four comparisons.
#[inline(always)]
fn are_lanes_of_spaces(text: &[u8]) -> bool
    requires { length text.now ≡ 32 }
    ensures { IsTrue result → text.now ≡ replicate 32 32 }
{
    let (front, back) = text.split_at(16);
    are_sixteen_spaces(front) && are_sixteen_spaces(back)
}

/// The text without as many spaces at its end as fill the lanes, as often as they stand there.
#[inline(always)]
fn without_lanes(text: &[u8]) -> &[u8]
    ensures { trimmed result.now ≡ trimmed text.now }
{
    let mut rest = text;
    while let Some((front, last)) = rest.split_last_chunk::<LANES>() {
        if !are_lanes_of_spaces(last) {
            break;
        }
        rest = front;
    }
    rest
}

/// The text without eight spaces at its end, as often as they stand there.
#[inline(always)]
fn without_eights(text: &[u8]) -> &[u8]
    ensures { trimmed result.now ≡ trimmed text.now }
{
    let mut rest = text;
    while let Some((front, last)) = rest.split_last_chunk::<8>() {
        if !are_same(last, b"        ") {
            break;
        }
        rest = front;
    }
    rest
}

/// The text without four spaces at its end, where they stand there.
#[inline(always)]
fn without_four(text: &[u8]) -> &[u8]
    ensures { trimmed result.now ≡ trimmed text.now }
{
    let Some((front, last)) = text.split_last_chunk::<4>() else {
        return text;
    };
    if u32::from_le_bytes(*last) != 0x2020_2020 {
        return text;
    }
    front
}

/// The text without two spaces at its end, where they stand there.
#[inline(always)]
fn without_two(text: &[u8]) -> &[u8]
    ensures { trimmed result.now ≡ trimmed text.now }
{
    let Some((front, last)) = text.split_last_chunk::<2>() else {
        return text;
    };
    if u16::from_le_bytes(*last) != 0x2020 {
        return text;
    }
    front
}

/// The text without its trailing spaces. They are looked for eight at a time, then four, two and one.
pub fn trimmed(text: &[u8]) -> &[u8]
    ensures { result.now ≡ trimmed text.now }
{
    let mut rest = without_two(without_four(without_eights(text)));
    while let [front @ .., last] = rest {
        if *last != b' ' {
            break;
        }
        rest = front;
    }
    rest
}

/// The same, for a text that may end with many spaces, as a line does: they are looked for thirty-two at a time first.
pub fn trimmed_line(line: &[u8]) -> &[u8]
    ensures { result.now ≡ trimmed line.now }
{
    trimmed(without_lanes(line))
}

/// Whether the cell is the number's last decimal digits, as many as it is wide, with leading zeros.
#[inline(always)]
pub fn spells(cell: &[u8], number: u64) -> bool
    ensures { IsTrue result ↔ (cell.now ≡ digits (length cell.now) number) }
{
    let mut rest = number;
    let mut text = cell;
    while let [front @ .., last] = text {
        if *last != b'0' + (rest % 10) as u8 {
            return false;
        }
        rest /= 10;
        text = front;
    }
    true
}
