//! Numbers and codes of others, as far as they can be judged by themselves: by check digits and by their form.

ghost use Rattle.std.specs.Prelude.{◌≡◌, ◌+◌, ◌*◌, ◌≤◌, ◌<◌, ◌-◌, ◌&&◌, ◌||◌, ◌==◌, ◌%◌, ◌^◌, length, drop, take};
ghost use Rattle.std.specs.List.{list_all};
ghost use Rattle.cwr_fields.specs.Format.Bytes.{are_digits, is_digit};
ghost use Rattle.cwr_advice.specs.Format.Numbers.{base_weights, checks, ean_weights, has_base_form, is_ean, is_ean_of, is_ipi_base, is_ipi_name, is_isrc};
ghost use Rattle.cwr_advice.specs.Format.Numbers.{is_language, is_letter, is_society, is_territory_number, is_zero, name_weights, weighted};

use cwr_fields::trimmed;
use cwr_findings::number_of;

/// The weights of the nine digits of an IPI name number.
const NAME_WEIGHTS: [u8; 9] = [10, 9, 8, 7, 6, 5, 4, 3, 2];

/// The weights of the nine digits of an IPI base number.
const BASE_WEIGHTS: [u8; 9] = [1, 2, 3, 4, 5, 6, 7, 8, 9];

/// The weights of the digits of an EAN, of which the last one's is 1 however many there are.
const EAN_WEIGHTS: [u8; 14] = [3, 1, 3, 1, 3, 1, 3, 1, 3, 1, 3, 1, 3, 1];

/// The digits by their weights, added up, as far as both go.
fn weighted(weights: &[u8], digits: &[u8]) -> u32
    requires { length weights.now ≤ 20 }
    ensures value { result ≡ weighted weights.now digits.now }
    ensures small { result ≤ 65025 * length weights.now }
{
    let mut sum: u32 = 0;
    for (weight, digit) in weights.iter().zip(digits) {
        sum += u32::from(*weight) * u32::from(digit.saturating_sub(b'0'));
    }
    sum
}

/// Whether the byte is a digit.
#[inline(always)]
fn is_digit(byte: u8) -> bool
    ensures { result ≡ is_digit byte }
{
    b'0' <= byte && byte <= b'9'
}

/// Whether every byte is a digit.
fn are_digits(cell: &[u8]) -> bool
    ensures { result ≡ are_digits cell.now }
{
    cell.iter().all(|byte| is_digit(*byte))
}

/// Whether the byte is a letter.
#[inline(always)]
pub(crate) fn is_letter(byte: u8) -> bool
    ensures { result ≡ is_letter byte }
{
    (b'A' <= byte && byte <= b'Z') || (b'a' <= byte && byte <= b'z')
}

/// Whether every byte is a letter.
fn are_letters(cell: &[u8]) -> bool
    ensures { result ≡ list_all is_letter cell.now }
{
    cell.iter().all(|byte| is_letter(*byte))
}

/// Whether every byte is a letter or a digit.
fn are_letters_or_digits(cell: &[u8]) -> bool
    ensures { result ≡ list_all (λ b. is_letter b || is_digit b) cell.now }
{
    cell.iter().all(|byte| is_letter(*byte) || is_digit(*byte))
}

/// Whether the number that two digits write belongs to the remainder.
fn checks(remainder: u32, number: u64) -> bool
    requires { number < 10 ^ 10 }
    ensures { result ≡ checks remainder number }
{
    u64::from(remainder) + number == 101 || (remainder < 2 && number < 2)
}

/// Whether the cell is an IPI name number: eleven digits, of which the last two check the others by the modulus 101.
pub(crate) fn is_ipi_name(cell: &[u8]) -> bool
    ensures { result ≡ is_ipi_name cell.now }
{
    cell.len() == 11
        && are_digits(cell)
        && checks(weighted(&NAME_WEIGHTS, cell) % 101, number_of(&cell[9..]))
}

/// Whether the cell has the form of an IPI base number.
fn has_base_form(cell: &[u8]) -> bool
    ensures { result ≡ has_base_form cell.now }
{
    cell.len() == 13
        && &cell[..2] == b"I-".as_slice()
        && are_digits(&cell[2..11])
        && cell[11] == b'-'
        && is_digit(cell[12])
}

/// Whether the cell is an IPI base number: `I-`, nine digits, a hyphen and the check digit.
pub(crate) fn is_ipi_base(cell: &[u8]) -> bool
    ensures { result ≡ is_ipi_base cell.now }
{
    if !has_base_form(cell) {
        return false;
    }
    let check = u32::from(cell[12].saturating_sub(b'0'));
    (2 + weighted(&BASE_WEIGHTS, &cell[2..]) + check) % 10 == 0
}

/// Whether the cell is an ISRC: two letters, three letters or digits, seven digits.
pub(crate) fn is_isrc(cell: &[u8]) -> bool
    ensures { result ≡ is_isrc cell.now }
{
    cell.len() == 12
        && are_letters(&cell[..2])
        && are_letters_or_digits(&cell[2..5])
        && are_digits(&cell[5..])
}

/// Whether the digits are an EAN, or a UPC.
fn is_ean_of(digits: &[u8]) -> bool
    ensures { result ≡ is_ean_of digits.now }
{
    are_digits(digits)
        && digits.len() <= 13
        && weighted(&EAN_WEIGHTS[14 - digits.len()..], digits) % 10 == 0
}

/// Whether the cell is an EAN, or a UPC: at most 13 digits, of which the last one checks the others.
pub(crate) fn is_ean(cell: &[u8]) -> bool
    ensures { result ≡ is_ean cell.now }
{
    is_ean_of(trimmed(cell))
}

/// Whether the cell has the form of a society's number.
pub(crate) fn is_society(cell: &[u8]) -> bool
    ensures { result ≡ is_society cell.now }
{
    cell.len() == 3 && are_digits(cell)
}

/// Whether every byte is the digit 0.
pub(crate) fn is_zero(cell: &[u8]) -> bool
    ensures { result ≡ is_zero cell.now }
{
    cell.iter().all(|byte| *byte == b'0')
}

/// Whether the cell has the form of a territory's number: that of a country is below 1000, and that of a group begins with 21.
pub(crate) fn is_territory_number(cell: &[u8]) -> bool
    ensures { result ≡ is_territory_number cell.now }
{
    (cell.starts_with(b"0") && !is_zero(cell)) || cell.starts_with(b"21")
}

/// Whether the cell has the form of a language's code.
pub(crate) fn is_language(cell: &[u8]) -> bool
    ensures { result ≡ is_language cell.now }
{
    cell.len() == 2 && are_letters(cell)
}
