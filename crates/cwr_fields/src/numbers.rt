//! Numbers and shares as values.

ghost use Rattle.std.specs.Prelude.{◌≡◌, ◌↔◌, ◌<◌, ◌≤◌, ◌^◌, Some, None, IsSome, IfSome, length};
ghost use Rattle.std.specs.Option.{ForSome};

use crate::byte_runs::{is_spaces, number_in, write_digits};
use crate::cell_types::CellType;
use crate::typed_cells::Cell;

/// A number that is written in `W` digits, with leading zeros. `W` is from 1 to 10.
#[derive(Clone, Copy, Debug, PartialEq, Eq, PartialOrd, Ord, Hash)]
pub struct Number<const W: usize> {
    value: u64,
    ghost wide: { 0 < W },
    ghost small: { value < 10 ^ W },
}

impl<const W: usize> Number<W> {
    /// The number as a value. `None` where `W` digits can't write it: from 10 to the power `W` on.
    pub fn new(value: u64) -> Option<Number<W>>
        requires least { 0 < W }
        requires most { W ≤ 10 }
        ensures some { IsSome result ↔ (value < 10 ^ W) }
        ensures value { IfSome result (λ n. n.value ≡ value) }
    {
        if value < 10u64.pow(W as u32) {
            Some(Number { value })
        } else {
            None
        }
    }

    /// The number.
    pub fn value(self) -> u64
        ensures { result ≡ self.entry.value }
    {
        self.value
    }
}

impl<const W: usize> Cell for Number<W> {
    ghost use Rattle.cwr_fields.specs.declared.cell_types.CellType.TheVariants as types;
    ghost use Rattle.cwr_fields.specs.Format.Bytes.{digits};
    ghost use mathlib.Core.HLevel.{is_prop→PathP};
    ghost use Rattle.std.specs.Coded.{le_prop};
    ghost use Rattle.cwr_fields.specs.Format.NumberLaws.{number_width, number_fits, number_equal};

    const TYPE: CellType = CellType::Number;

    const WIDTH: usize = W;

    ghost TYPE = { types.Number };

    ghost WIDTH = { W };

    ghost text = { λ n. digits W n.value };

    fn read(cell: &[u8]) -> Option<Number<W>> {
        if cell.len() != W {
            return None;
        }
        Number::new(number_in(cell)?)
    }

    fn write(&self, cell: &mut [u8]) {
        write_digits(cell, self.value());
    }

    ghost width = { λ n. number_width W n.value };

    ghost fits = { λ n. number_fits W n.value n.wide n.small };

    ghost equal = { λ x y e. let same : x.value ≡ y.value = number_equal W x.value y.value x.small y.small e in
        λ i. record { value = same i; wide = le_prop x.wide y.wide i; small = is_prop→PathP (λ j. same j < 10 ^ W) (λ j. le_prop) x.small y.small i } };
}

/// A share of royalties in hundredths of a percent, at most 10000, or a blank one, which says nothing. A blank share and
/// none of the royalties, which is `00000`, are different values.
#[derive(Clone, Copy, Debug, PartialEq, Eq)]
pub struct Share {
    hundredths: Option<u16>,
    ghost whole: { ForSome hundredths (λ n. n ≤ 10000) },
}

impl Share {
    /// The share that says nothing.
    pub fn blank() -> Share
        ensures { result.hundredths ≡ None }
    {
        Share { hundredths: None }
    }

    /// A share of so many hundredths of a percent. `None` above 10000.
    pub fn new(hundredths: u64) -> Option<Share>
        ensures some { IsSome result ↔ (hundredths ≤ 10000) }
        ensures value { IfSome result (λ s. s.hundredths ≡ Some hundredths) }
    {
        if hundredths > 10000 {
            return None;
        }
        Some(Share {
            hundredths: Some(hundredths as u16),
        })
    }

    /// The hundredths of a percent. `None` of a blank share.
    pub fn hundredths(self) -> Option<u16>
        ensures { result ≡ self.hundredths }
    {
        self.hundredths
    }
}

impl Cell for Share {
    ghost use Rattle.cwr_fields.specs.declared.cell_types.CellType.TheVariants as types;
    ghost use Rattle.cwr_fields.specs.Format.ShareLaws.{share_text, share_width, share_fits, share_equal, whole_prop};
    ghost use mathlib.Core.HLevel.{is_prop→PathP};

    const TYPE: CellType = CellType::Share;

    const WIDTH: usize = 5;

    ghost TYPE = { types.Share };

    ghost WIDTH = { 5 };

    ghost text = { λ s. share_text s.hundredths };

    fn read(cell: &[u8]) -> Option<Share> {
        if cell.len() != 5 {
            return None;
        }
        if is_spaces(cell) {
            return Some(Share::blank());
        }
        Share::new(number_in(cell)?)
    }

    fn write(&self, cell: &mut [u8]) {
        match self.hundredths() {
            None => cell.fill(b' '),
            Some(hundredths) => write_digits(cell, u64::from(hundredths)),
        }
    }

    ghost width = { λ s. share_width s.hundredths };

    ghost fits = { λ s. share_fits s.hundredths s.whole };

    ghost equal = { λ x y e. let same : x.hundredths ≡ y.hundredths = share_equal x.hundredths y.hundredths x.whole y.whole e in
        λ i. record { hundredths = same i; whole = is_prop→PathP (λ j. ForSome (same j) (λ n. n ≤ 10000)) (λ j. whole_prop (same j)) x.whole y.whole i } };
}
