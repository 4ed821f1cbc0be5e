//! Typed cells by example.

ghost use Rattle.std.specs.Prelude.{◌<◌, ◌≤◌};

use crate::checks::check_equal;
use cwr_fields::{
    Cell, CivilDate, DateCell, DurationCell, Flag, Number, OutOfRange, PlayingTime, Share,
    TimeOfDay,
};
use jiff::civil::{Date, date, time};
use std::fmt::Display;
use std::process::Abort;
use std::time::Duration;

/// Whether the cell is read, and written back as it was.
fn reads_back<C: Cell>(cell: &[u8]) -> bool
    requires least { 0 < C.WIDTH }
    requires most { C.WIDTH ≤ 10 }
{
    let mut written = [0; 10];
    match (C::read(cell), written.get_mut(..C::WIDTH)) {
        (Some(value), Some(written)) => {
            value.write(written);
            &*written == cell
        }
        _ => false,
    }
}

/// Checks that each of the first cells is read and written back as it was, and that none of the others is read.
fn check_cells<C: Cell, R: Abort>(rt: &R, good: &[&[u8]], bad: &[&[u8]])
    requires least { 0 < C.WIDTH }
    requires most { C.WIDTH ≤ 10 }
{
    for cell in good {
        assert!(rt; reads_back::<C>(cell), "{cell:?}");
    }
    for cell in bad {
        assert!(rt; C::read(cell).is_none(), "{cell:?}");
    }
}

#[test]
fn numbers(rt: HostRuntime) {
    check_cells::<Number<10>, _>(&rt, &[b"9999999999"], &[]);
    check_cells::<Number<1>, _>(&rt, &[b"0"], &[]);
    check_cells::<Number<5>, _>(&rt, &[b"00007"], &[b"1234", b"1234x", b"     "]);
}

#[test]
fn numbers_in_their_ranges(rt: HostRuntime) {
    let most = (Some(99999), Ok(99999));
    let more = (None, Err(OutOfRange));
    check_equal(&rt, [made(99999), made(100000)], [most, more]);
    check_equal(&rt, Number::<11>::try_from(0), Err(OutOfRange));
}

/// The value of a number of five digits, made in two ways.
fn made(value: u64) -> (Option<u64>, Result<u64, OutOfRange>) {
    (
        Number::<5>::new(value).map(Number::value),
        Number::<5>::try_from(value).map(Number::value),
    )
}

#[test]
fn cells_of_numbers(rt: HostRuntime) {
    let seven = Number::<5>::new(7).expect(&rt, "no number");
    let mut cell = [0; 5];
    seven.write(&mut cell);
    check_equal(&rt, (&cell, u64::from(seven)), (b"00007", 7));
}

#[test]
fn shares(rt: HostRuntime) {
    let good: [&[u8]; 3] = [b"     ", b"00000", b"10000"];
    check_cells::<Share, _>(&rt, &good, &[b"10001", b"1000 "]);
}

#[test]
fn blank_shares(rt: HostRuntime) {
    let mut cell = [0; 5];
    Share::blank().write(&mut cell);
    let is_zero = Share::read(b"00000") == Some(Share::blank());
    check_equal(&rt, (&cell, is_zero), (b"     ", false));
}

#[test]
fn shares_of_numbers(rt: HostRuntime) {
    let shares = [
        Share::try_from(3333).map(Share::hundredths),
        Share::try_from(10001).map(Share::hundredths),
    ];
    check_equal(&rt, shares, [Ok(Some(3333)), Err(OutOfRange)]);
}

#[test]
fn days(rt: HostRuntime) {
    let good: [&[u8]; 3] = [b"        ", b"00000000", b"20240229"];
    check_cells::<DateCell, _>(&rt, &good, &[b"20230229"]);
    let good: [&[u8]; 2] = [b"00010101", b"99991231"];
    let bad: [&[u8]; 3] = [b"00000101", b"00000000", b"2024022"];
    check_cells::<CivilDate, _>(&rt, &good, &bad);
}

#[test]
fn days_that_are_none(rt: HostRuntime) {
    let days = [DateCell::read(b"00000000"), DateCell::read(b"        ")];
    check_equal(&rt, days, [Some(DateCell::Zeros), Some(DateCell::Blank)]);
}

#[test]
fn days_from_numbers(rt: HostRuntime) {
    let leap = CivilDate::new(2024, 2, 29);
    let read = (CivilDate::read(b"20240229"), DateCell::read(b"20240229"));
    check_equal(&rt, (leap, leap.map(DateCell::from)), read);
}

#[test]
fn days_of_the_calendar(rt: HostRuntime) {
    let leap = CivilDate::new(2024, 2, 29);
    check_equal(&rt, leap.map(Date::from), Some(date(2024, 2, 29)));
    let days = (
        CivilDate::try_from(date(2024, 2, 29)).ok(),
        CivilDate::try_from(date(0, 12, 31)),
    );
    check_equal(&rt, days, (leap, Err(OutOfRange)));
}

#[test]
fn times(rt: HostRuntime) {
    let bad: [&[u8]; 3] = [b"240000", b"236000", b"235960"];
    check_cells::<TimeOfDay, _>(&rt, &[b"235959"], &bad);
    let late = TimeOfDay::new(23, 59, 58);
    let clock = Some(time(23, 59, 58, 0));
    check_equal(&rt, late.map(jiff::civil::Time::from), clock);
}

#[test]
fn durations(rt: HostRuntime) {
    let good: [&[u8]; 3] = [b"995959", b"000000", b"      "];
    check_cells::<DurationCell, _>(&rt, &good, &[b"006000"]);
}

#[test]
fn playing_times(rt: HostRuntime) {
    let song = PlayingTime::new(0, 3, 25);
    let seconds = (
        song.map(PlayingTime::total_seconds),
        song.map(Duration::from),
    );
    check_equal(&rt, seconds, (Some(205), Some(Duration::from_secs(205))));
    let cells = (song.map(DurationCell::from), Some(DurationCell::Blank));
    let read = (DurationCell::read(b"000325"), DurationCell::read(b"      "));
    check_equal(&rt, cells, read);
}

#[test]
fn flags(rt: HostRuntime) {
    let good: [&[u8]; 4] = [b"Y", b"N", b"U", b" "];
    check_cells::<Flag, _>(&rt, &good, &[b"X", b""]);
}

/// Checks what is printed of a value, which there is.
fn check_text(rt: &(impl Abort + AllocGlobal), value: Option<impl Display + Copy>, wanted: &str) {
    let printed = value.expect(rt, "no value");
    let text = format!(in rt.alloc(); "{printed}").expect(rt, "no memory");
    check_equal(rt, text.as_str(), wanted);
}

/// Checks what is printed of a value in a place of three bytes.
fn check_padded(rt: &(impl Abort + AllocGlobal), value: Option<impl Display + Copy>, wanted: &str) {
    let printed = value.expect(rt, "no value");
    let text = format!(in rt.alloc(); "[{printed:>3}]").expect(rt, "no memory");
    check_equal(rt, text.as_str(), wanted);
}

/// Checks what is printed of a value with zeros in a place of three bytes.
fn check_zeros(rt: &(impl Abort + AllocGlobal), value: Option<impl Display + Copy>, wanted: &str) {
    let printed = value.expect(rt, "no value");
    let text = format!(in rt.alloc(); "{printed:03}").expect(rt, "no memory");
    check_equal(rt, text.as_str(), wanted);
}

#[test]
fn numbers_and_shares_print(rt: HostRuntime) {
    check_text(&rt, Number::<5>::new(7), "7");
    check_zeros(&rt, Number::<5>::new(7), "007");
    check_text(&rt, Share::new(3305), "33.05%");
    check_text(&rt, Share::new(10000), "100.00%");
    check_text(&rt, Share::new(5), "0.05%");
    check_text(&rt, Some(Share::blank()), "");
    check_text(&rt, Some(OutOfRange), "out of the range of the cell");
}

#[test]
fn flags_and_times_print(rt: HostRuntime) {
    check_text(&rt, Some(Flag::Unknown), "U");
    check_padded(&rt, Some(Flag::Yes), "[  Y]");
    check_text(&rt, CivilDate::new(987, 2, 3), "0987-02-03");
    check_text(&rt, TimeOfDay::new(4, 5, 6), "04:05:06");
    check_text(&rt, PlayingTime::new(12, 3, 25), "12:03:25");
}
