//! Tests of limits, and of what their faults and the bars of records print.

use crate::checks::check_equal;
use cwr_shape::{Bar, LimitKind, Limits, LimitsFault};
use std::fmt::Display;
use std::process::Abort;

/// The most records, groups and records of a transaction.
type Numbers = (u32, u32, u32);

/// The numbers of limits of these numbers.
fn numbers_of((records, groups, transaction): Numbers) -> Result<Numbers, LimitsFault> {
    let limits = Limits::new(records, groups, transaction)?;
    Ok((limits.records(), limits.groups(), limits.transaction()))
}

static REFUSED: [(Numbers, LimitsFault); 6] = [
    ((4, 0, 0), LimitsFault::Records),
    ((5, 0, 0), LimitsFault::Groups),
    ((5, 1, 0), LimitsFault::Transaction),
    ((100_000_000, 1, 1), LimitsFault::Records),
    ((5, 100_000, 1), LimitsFault::Groups),
    ((5, 1, 1_000_000), LimitsFault::Transaction),
];

#[test]
fn limits_in_their_ranges(rt: HostRuntime) {
    for (numbers, fault) in &REFUSED {
        check_equal(&rt, numbers_of(*numbers), Err(*fault));
    }
    for numbers in [(5, 1, 1), (99_999_999, 99_999, 999_999)] {
        check_equal(&rt, numbers_of(numbers), Ok(numbers));
    }
}

/// Checks the text that is printed.
fn check_text(rt: &(impl Abort + AllocGlobal), printed: impl Display + Copy, wanted: &str) {
    let text = format!(in rt.alloc(); "{printed}").expect(rt, "no memory");
    check_equal(rt, text.as_str(), wanted);
}

static BARS: [(Bar, &str); 4] = [
    (Bar::Misplaced, "misplaced"),
    (Bar::Limit(LimitKind::Records), "limit records"),
    (Bar::Limit(LimitKind::Groups), "limit groups"),
    (Bar::Limit(LimitKind::Transaction), "limit transaction"),
];

static KINDS: [(LimitKind, &str); 3] = [
    (LimitKind::Records, "records"),
    (LimitKind::Groups, "groups"),
    (LimitKind::Transaction, "transaction"),
];

#[rattlefmt::skip]
static FAULTS: [(LimitsFault, &str); 3] = [
    (LimitsFault::Records, "limit of records out of range"),
    (LimitsFault::Groups, "limit of groups out of range"),
    (LimitsFault::Transaction, "limit of a transaction's records out of range"),
];

#[test]
fn faults_print(rt: HostRuntime) {
    for (bar, text) in &BARS {
        check_text(&rt, *bar, text);
    }
    for (kind, text) in &KINDS {
        check_text(&rt, *kind, text);
    }
    for (fault, text) in &FAULTS {
        check_text(&rt, *fault, text);
    }
}
