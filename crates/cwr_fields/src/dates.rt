//! Days of the calendar as values.

ghost use Rattle.std.specs.Prelude.{◌≡◌, ◌↔◌, ◌<◌, IsSome, IfSome, length, pos};
ghost use Rattle.jiff.specs.Words.{IsDate};

use crate::byte_runs::{three_numbers, write_three};
use crate::cell_types::CellType;
use crate::typed_cells::Cell;
use cwr_calendar::is_date;

/// A day of the proleptic Gregorian calendar, in a year from 1 to 9999.
#[derive(Clone, Copy, Debug, PartialEq, Eq, PartialOrd, Ord, Hash)]
pub struct CivilDate {
    year: u16,
    month: u8,
    day: u8,
    ghost after_zero: { 0 < year },
    ghost civil: { IsDate (pos year) (pos month) (pos day) },
}

impl CivilDate {
    /// The day. `None` where the calendar has no such day, or its year isn't from 1 to 9999.
    pub fn new(year: u16, month: u8, day: u8) -> Option<CivilDate>
        ensures some { IsSome result ↔ ((0 < year) × IsDate (pos year) (pos month) (pos day)) }
        ensures value { IfSome result (λ d. (d.year ≡ year) × (d.month ≡ month) × (d.day ≡ day)) }
    {
        if is_date(year, month, day) {
            Some(CivilDate { year, month, day })
        } else {
            None
        }
    }

    /// The year, from 1 to 9999.
    pub fn year(self) -> u16
        ensures { result ≡ self.year }
    {
        self.year
    }

    /// The month, from 1 to 12.
    pub fn month(self) -> u8
        ensures { result ≡ self.month }
    {
        self.month
    }

    /// The day of the month, from 1 to 31.
    pub fn day(self) -> u8
        ensures { result ≡ self.day }
    {
        self.day
    }
}

impl Cell for CivilDate {
    ghost use Rattle.cwr_fields.specs.declared.cell_types.CellType.TheVariants as types;
    ghost use Rattle.cwr_fields.specs.Format.DateLaws.{day_text, day_width, day_fits, day_equal};
    ghost use Rattle.std.specs.Coded.{le_prop};
    ghost use denote.Struct.Props.{props};
    ghost use mathlib.Core.HLevel.{is_prop→PathP};

    const TYPE: CellType = CellType::Date;

    const WIDTH: usize = 8;

    ghost TYPE = { types.Date };

    ghost WIDTH = { 8 };

    ghost text = { λ d. day_text d.year d.month d.day };

    fn read(cell: &[u8]) -> Option<CivilDate> {
        if cell.len() != 8 {
            return None;
        }
        let (year, month, day) = three_numbers(4, cell)?;
        CivilDate::new(year as u16, month as u8, day as u8)
    }

    fn write(&self, cell: &mut [u8]) {
        let CivilDate { year, month, day } = *self;
        let numbers = (year.into(), month.into(), day.into());
        write_three(cell, 4, numbers);
    }

    ghost width = { λ d. day_width d.year d.month d.day };

    ghost fits = { λ d. day_fits d.year d.month d.day d.after_zero d.civil };

    ghost equal = { λ x y e. let same = day_equal x.year x.month x.day y.year y.month y.day x.civil y.civil e in
        λ i. record {
          year = same.0 i;
          month = same.1 i;
          day = same.2 i;
          after_zero = is_prop→PathP (λ j. 0 < same.0 j) (λ j. le_prop) x.after_zero y.after_zero i;
          civil = is_prop→PathP (λ j. IsDate (pos (same.0 j)) (pos (same.1 j)) (pos (same.2 j))) (λ j. Prim.hlevel props) x.civil y.civil i;
        } };
}

/// What a cell says of a day: nothing, by spaces or by zeros, or which one. The two ways of saying nothing are
/// different values.
#[derive(Clone, Copy, Debug, PartialEq, Eq)]
pub enum DateCell {
    /// Spaces.
    Blank,
    /// Eight zeros.
    Zeros,
    /// A day.
    Day(CivilDate),
}

impl Cell for DateCell {
    ghost use Rattle.cwr_fields.specs.declared.cell_types.CellType.TheVariants as types;
    ghost use Rattle.cwr_fields.specs.Format.DateCells.{date_text, date_width, date_fits, date_equal};

    const TYPE: CellType = CellType::OptDate;

    const WIDTH: usize = 8;

    ghost TYPE = { types.OptDate };

    ghost WIDTH = { 8 };

    ghost text = { date_text };

    fn read(cell: &[u8]) -> Option<DateCell> {
        if cell == b"        ".as_slice() {
            return Some(DateCell::Blank);
        }
        if cell == b"00000000".as_slice() {
            return Some(DateCell::Zeros);
        }
        let day = CivilDate::read(cell)?;
        Some(DateCell::Day(day))
    }

    fn write(&self, cell: &mut [u8]) {
        match self {
            DateCell::Blank => cell.fill(b' '),
            DateCell::Zeros => cell.fill(b'0'),
            DateCell::Day(day) => day.write(cell),
        }
    }

    ghost width = { date_width };

    ghost fits = { date_fits };

    ghost equal = { date_equal };
}
