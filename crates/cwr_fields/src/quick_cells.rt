//! Quick tests of cells: a yes is right, and a no says nothing, so that it is left to `fits`.

ghost use Rattle.std.specs.Prelude.{◌≡◌, ◌≤◌, ◌<◌, ◌⊎◌, ◌∷◌, [], IsTrue, length, replicate};
ghost use Rattle.std.specs.Option.{ForSome};
ghost use Rattle.cwr_fields.specs.Format.Bytes.{are_digits, is_digit, is_plain, number_of};
ghost use Rattle.cwr_fields.specs.Format.Cells.{Allows, SpellsDay, SpellsTime, type_width};

use crate::byte_runs::is_spaces;
use crate::cell_types::CellType;
use crate::cells::{fits, is_number, is_opt_code, is_opt_number};
use crate::known_codes::is_code;
use crate::spelled::are_same;

/// Whether the byte is a digit.
#[inline(always)]
fn is_digit(byte: u8) -> bool
    ensures { result ≡ is_digit byte }
{
    (48 <= byte) & (byte <= 57)
}

/// Whether a text is the four bytes of another, by one comparison.
#[inline(always)]
fn are_four(text: &[u8], other: &[u8]) -> bool
    requires { length other.now ≡ 4 }
    ensures { IsTrue result → text.now ≡ other.now }
{
    if text.len() != 4 {
        return false;
    }
    match (text.first_chunk::<4>(), other.first_chunk::<4>()) {
        (Some(text), Some(other)) => u32::from_le_bytes(*text) == u32::from_le_bytes(*other),
        _ => false,
    }
}

/// Whether a text is four digits.
#[inline(always)]
fn are_four_digits(text: &[u8]) -> bool
    ensures { IsTrue result → (length text.now ≡ 4) × IsTrue (are_digits text.now) }
{
    let [a, b, c, d] = text else {
        return false;
    };
    is_digit(*a) & is_digit(*b) & is_digit(*c) & is_digit(*d)
}

/// Whether the share is less than the whole, blank, or the whole. Its first byte tells which it may be.
#[inline(always)]
fn is_surely_share(cell: &[u8]) -> bool
    ensures { IsTrue result → Allows CellType.Share cell.now }
{
    let [first, rest @ ..] = cell else {
        return false;
    };
    match *first {
        b'0' => are_four_digits(rest),
        b' ' => are_four(rest, b"    "),
        b'1' => are_four(rest, b"0000"),
        _ => false,
    }
}

/// The number that two digits write.
#[inline(always)]
fn two_digits(a: u8, b: u8) -> u32
    ensures value { result ≡ number_of (a ∷ b ∷ []) }
    ensures small { result < 3000 }
{
    10 * u32::from(a.saturating_sub(b'0')) + u32::from(b.saturating_sub(b'0'))
}

/// Whether two bytes, of which the second is a digit, name a month.
#[inline(always)]
fn names_month(tens: u8, units: u8) -> bool
    ensures { IsTrue result → IsTrue (is_digit units)
        → (0 < number_of (tens ∷ units ∷ [])) × (number_of (tens ∷ units ∷ []) ≤ 12) }
{
    match tens {
        b'0' => units != b'0',
        b'1' => units <= b'2',
        _ => false,
    }
}

/// Whether two bytes, of which the second is a digit, name one of the first twenty-eight days of a month.
#[inline(always)]
fn names_early_day(tens: u8, units: u8) -> bool
    ensures { IsTrue result → IsTrue (is_digit units)
        → (0 < number_of (tens ∷ units ∷ [])) × (number_of (tens ∷ units ∷ []) ≤ 28) }
{
    match tens {
        b'0' => units != b'0',
        b'1' => true,
        b'2' => units <= b'8',
        _ => false,
    }
}

/// Whether the cell spells one of the first twenty-eight days of a month, in a year from 1000 on.
#[inline(always)]
fn is_surely_day(cell: &[u8]) -> bool
    ensures { IsTrue result → SpellsDay cell.now }
{
    let [a, b, c, d, e, f, g, h] = cell else {
        return false;
    };
    if !names_month(*e, *f) || !names_early_day(*g, *h) || *a < b'1' {
        return false;
    }
    let front = is_digit(*a) & is_digit(*b) & is_digit(*c) & is_digit(*d);
    let back = is_digit(*e) & is_digit(*f) & is_digit(*g) & is_digit(*h);
    front & back
}

/// Whether the cell spells hours below a bound, minutes and seconds.
#[inline(always)]
fn is_surely_time(bound: u32, cell: &[u8]) -> bool
    requires { bound ≤ 100 }
    ensures { IsTrue result → SpellsTime bound cell.now }
{
    let [a, b, c, d, e, f] = cell else {
        return false;
    };
    if *c > b'5' || *e > b'5' || two_digits(*a, *b) >= bound {
        return false;
    }
    is_digit(*a) & is_digit(*b) & is_digit(*c) & is_digit(*d) & is_digit(*e) & is_digit(*f)
}

/// Whether a date is blank, one of the first twenty-eight days of a month, or else fits.
#[inline(always)]
fn is_surely_date(cell: &[u8]) -> bool
    requires { length cell.now ≡ 8 }
    ensures { IsTrue result → Allows CellType.OptDate cell.now }
{
    if are_same(cell, b"        ") {
        return true;
    }
    if is_surely_day(cell) {
        return true;
    }
    fits_by_type(CellType::OptDate, cell)
}

/// Whether the cell is one byte that is a flag.
#[inline(always)]
fn is_surely_flag(cell: &[u8]) -> bool
    ensures { IsTrue result → Allows CellType.Flag cell.now }
{
    let [byte] = cell else {
        return false;
    };
    (*byte == 32) | (*byte == 78) | (*byte == 85) | (*byte == 89)
}

/// What is left to `fits`.
#[inline(never)]
fn fits_by_type(ty: CellType, cell: &[u8]) -> bool
    requires { ForSome (type_width ty) (λ width. length cell.now ≡ width) }
    ensures { IsTrue result → Allows ty cell.now }
{
    fits(ty, cell).is_ok()
}

/// Whether a time of day, or a duration, is blank or spelled.
#[inline(always)]
fn is_blank_or_time(bound: u32, cell: &[u8]) -> bool
    requires most { bound ≤ 100 }
    requires width { length cell.now ≡ 6 }
    ensures { IsTrue result → (cell.now ≡ replicate 6 32) ⊎ SpellsTime bound cell.now }
{
    if is_spaces(cell) {
        return true;
    }
    is_surely_time(bound, cell)
}

/// Whether a quick test finds the cell to be one of its type. The cell has no control byte, and is as wide as `width_of`
/// says. A no says nothing.
#[inline(always)]
pub fn surely_fits(ty: CellType, cell: &[u8]) -> bool
    requires width { ForSome (type_width ty) (λ width. length cell.now ≡ width) }
    requires plain { IsTrue (is_plain cell.now) }
    ensures { IsTrue result → Allows ty cell.now }
{
    match ty {
        CellType::Text => true,
        CellType::Required => !is_spaces(cell),
        CellType::Number => is_number(cell),
        CellType::OptNumber => is_opt_number(cell),
        CellType::Share => is_surely_share(cell),
        CellType::Flag => is_surely_flag(cell),
        CellType::Code(table) => is_code(table, cell),
        CellType::OptCode(table) => is_opt_code(table, cell),
        CellType::OptDate => is_surely_date(cell),
        CellType::OptTime => is_blank_or_time(24, cell),
        CellType::OptDuration => is_blank_or_time(100, cell),
        _ => fits_by_type(ty, cell),
    }
}
