//! The International Standard Musical Work Code of ISO 15707.

ghost use Rattle.std.specs.Prelude.{◌≡◌, ◌+◌, ◌-◌, ◌*◌, ◌<◌, IsTrue, length, map, zip};
ghost use Rattle.std.specs.List.{sum_by};
ghost use Rattle.cwr_fields.specs.Format.Bytes.{are_digits};
ghost use Rattle.cwr_fields.specs.Format.Iswc.{factors, is_iswc};

use crate::byte_runs::are_digits;

/// The factors of the nine digits of a work code and of its check digit.
static FACTORS: [u32; 10] = [1, 2, 3, 4, 5, 6, 7, 8, 9, 1];

/// The sum of the digits by their factors.
fn weighted_sum(digits: &[u8]) -> u32
    requires length { length digits.now ≡ 10 }
    requires digits { IsTrue (are_digits digits.now) }
    ensures sum { result ≡ sum_by (λ p. p.0 * p.1) (zip factors (map (λ b. b - 48) digits.now)) }
    ensures bound { result < 1000 }
{
    let mut sum = 0;
    for (at, digit) in digits.iter().enumerate() {
        sum += FACTORS[at] * u32::from(*digit - b'0');
    }
    sum
}

/// Whether the text is a work code without its separators: `T`, nine digits and the check digit of
/// ISO 15707, by which one and the digits by their factors add up to a multiple of ten.
pub fn iswc_ok(text: &[u8]) -> bool
    ensures { result ≡ is_iswc text.now }
{
    text.len() == 11
        && text[0] == b'T'
        && are_digits(&text[1..])
        && (1 + weighted_sum(&text[1..])).is_multiple_of(10)
}
