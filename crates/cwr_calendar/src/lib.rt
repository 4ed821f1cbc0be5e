//! Which days the calendar has.
#![tactic(auto)]

ghost use Rattle.std.specs.Prelude.{◌↔◌, ◌<◌, IsTrue, pos};
ghost use Rattle.jiff.specs.Words.{IsDate};

use jiff::civil::Date;

/// Whether the proleptic Gregorian calendar has the day, in a year from 1 to 9999.
pub fn is_date(year: u16, month: u8, day: u8) -> bool
    ensures { IsTrue result ↔ ((0 < year) × IsDate (pos year) (pos month) (pos day)) }
{
    year != 0
        && year < 10_000
        && month < 100
        && day < 100
        && Date::new(year as i16, month as i8, day as i8).is_ok()
}
