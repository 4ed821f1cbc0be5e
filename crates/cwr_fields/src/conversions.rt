//! Typed cells as values of Rust's and jiff's own types, and as text.

ghost use Rattle.std.specs.Prelude.{◌≡◌, ◌↔◌, ◌<◌, ◌≤◌, ◌^◌, ◌+◌, ◌*◌, pos, ◌<ℤ◌, Some, IsOk, IfOk};
ghost use Rattle.std.specs.Duration.{as_nanos};
ghost use Rattle.jiff.specs.Words.{IsYmd, IsHms};

use crate::dates::{CivilDate, DateCell};
use crate::durations::{DurationCell, PlayingTime};
use crate::flags::Flag;
use crate::numbers::{Number, Share};
use crate::times::TimeOfDay;
use jiff::civil::{Date, Time, date, time};
use std::error::Error;
use std::fmt::{self, Display, Formatter, Write};
use std::time::Duration;

/// The value can't be written in a cell of the type.
#[derive(Clone, Copy, Debug, PartialEq, Eq)]
pub struct OutOfRange;

impl Display for OutOfRange {
    fn fmt<O: Write>(&self, f: &mut Formatter<O>) -> fmt::Result {
        f.write_str("out of the range of the cell")
    }
}

impl Error for OutOfRange {}

impl<const W: usize> From<Number<W>> for u64 {
    ghost from_gives = { λ n r. r ≡ n.value };

    fn from(number: Number<W>) -> u64 {
        number.value()
    }
}

impl<const W: usize> TryFrom<u64> for Number<W> {
    type Error = OutOfRange;

    ghost try_from_gives = { λ n r. (IsOk r ↔ ((0 < W) × (W ≤ 10) × (n < 10 ^ W))) × IfOk r (λ x. x.value ≡ n) };

    /// A number that `W` digits can't write is out of range, and so is each where `W` isn't from 1 to 10.
    fn try_from(number: u64) -> Result<Number<W>, OutOfRange> {
        if W == 0 || W > 10 {
            return Err(OutOfRange);
        }
        Number::new(number).ok_or(OutOfRange)
    }
}

impl<const W: usize> Display for Number<W> {
    ghost use Rattle.std.specs.Fmt.{decimal};

    ghost output = { λ n. Some (decimal n.value) };

    /// As Rust prints a number: without leading zeros, and by the format's own width.
    fn fmt<O: Write>(&self, f: &mut Formatter<O>) -> fmt::Result {
        self.value().fmt(f)
    }
}

impl TryFrom<u64> for Share {
    type Error = OutOfRange;

    ghost try_from_gives = { λ n r. (IsOk r ↔ (n ≤ 10000)) × IfOk r (λ s. s.hundredths ≡ Some n) };

    fn try_from(hundredths: u64) -> Result<Share, OutOfRange> {
        Share::new(hundredths).ok_or(OutOfRange)
    }
}

impl Display for Share {
    /// A percentage, as `33.33%`; nothing of a blank share.
    fn fmt<O: Write>(&self, f: &mut Formatter<O>) -> fmt::Result {
        match self.hundredths() {
            None => Ok(()),
            Some(hundredths) => write!(f, "{}.{:02}%", hundredths / 100, hundredths % 100),
        }
    }
}

impl From<CivilDate> for Date {
    ghost from_gives = { λ d r. IsYmd (pos d.year) (pos d.month) (pos d.day) r };

    fn from(day: CivilDate) -> Date {
        date(day.year() as i16, day.month() as i8, day.day() as i8)
    }
}

impl TryFrom<Date> for CivilDate {
    type Error = OutOfRange;

    ghost try_from_gives = { λ d r. (IsOk r ↔ (pos 0 <ℤ d.year)) × IfOk r (λ c. IsYmd (pos c.year) (pos c.month) (pos c.day) d) };

    /// A year before 1 is out of range.
    fn try_from(day: Date) -> Result<CivilDate, OutOfRange> {
        if day.year() < 1 {
            return Err(OutOfRange);
        }
        CivilDate::new(day.year() as u16, day.month() as u8, day.day() as u8).ok_or(OutOfRange)
    }
}

impl Display for CivilDate {
    /// As ISO 8601 writes it, as `2024-02-29`.
    fn fmt<O: Write>(&self, f: &mut Formatter<O>) -> fmt::Result {
        Date::from(*self).fmt(f)
    }
}

impl From<CivilDate> for DateCell {
    ghost use Rattle.cwr_fields.specs.declared.dates.DateCell.TheVariants.{Day};

    ghost from_gives = { λ d r. r ≡ Day d };

    fn from(day: CivilDate) -> DateCell {
        DateCell::Day(day)
    }
}

impl From<TimeOfDay> for Time {
    ghost from_gives = { λ t r. IsHms (pos t.hour) (pos t.minute) (pos t.second) (pos 0) r };

    fn from(clock: TimeOfDay) -> Time {
        time(
            clock.hour() as i8,
            clock.minute() as i8,
            clock.second() as i8,
            0,
        )
    }
}

impl TryFrom<Time> for TimeOfDay {
    type Error = OutOfRange;

    ghost try_from_gives = { λ c r. (IsOk r ↔ (c.subsec_nanosecond ≡ 0)) × IfOk r (λ t. IsHms (pos t.hour) (pos t.minute) (pos t.second) (pos 0) c) };

    /// A time between two seconds is out of range.
    fn try_from(clock: Time) -> Result<TimeOfDay, OutOfRange> {
        if clock.subsec_nanosecond() != 0 {
            return Err(OutOfRange);
        }
        TimeOfDay::new(
            clock.hour() as u8,
            clock.minute() as u8,
            clock.second() as u8,
        )
        .ok_or(OutOfRange)
    }
}

impl Display for TimeOfDay {
    /// As ISO 8601 writes it, as `23:59:59`.
    fn fmt<O: Write>(&self, f: &mut Formatter<O>) -> fmt::Result {
        Time::from(*self).fmt(f)
    }
}

impl From<PlayingTime> for Duration {
    ghost from_gives = { λ t r. as_nanos r ≡ (3600 * t.hours + 60 * t.minutes + t.seconds) * 1_000_000_000 };

    fn from(playing: PlayingTime) -> Duration {
        Duration::from_secs(u64::from(playing.total_seconds()))
    }
}

impl Display for PlayingTime {
    /// Hours, minutes and seconds, as `00:03:25`.
    fn fmt<O: Write>(&self, f: &mut Formatter<O>) -> fmt::Result {
        write!(
            f,
            "{:02}:{:02}:{:02}",
            self.hours(),
            self.minutes(),
            self.seconds()
        )
    }
}

impl From<PlayingTime> for DurationCell {
    ghost use Rattle.cwr_fields.specs.declared.durations.DurationCell.TheVariants.{Lasting};

    ghost from_gives = { λ t r. r ≡ Lasting t };

    fn from(playing: PlayingTime) -> DurationCell {
        DurationCell::Lasting(playing)
    }
}

impl Display for Flag {
    ghost use Rattle.cwr_fields.specs.Format.Flags.{flag_text};

    ghost output = { λ x. Some (flag_text x) };

    /// The flag's letter, or a space.
    fn fmt<O: Write>(&self, f: &mut Formatter<O>) -> fmt::Result {
        f.pad(match self {
            Flag::Yes => "Y",
            Flag::No => "N",
            Flag::Unknown => "U",
            Flag::Blank => " ",
        })
    }
}
