//! Tests of tallies, on worked orders of records.

use crate::checks::check_equal;
use cwr_fields::{Kind, Role, TransactionType};
use cwr_shape::{Bar, LimitKind, Limits, Scope, Stage, Symbol, Tally, TransactionStep};
use std::process::Abort;

const HDR: Symbol = Symbol::Plain(Kind::Hdr);

const NWR: Symbol = Symbol::Plain(Kind::Nwr);

const REV: Symbol = Symbol::Plain(Kind::Rev);

const SWR: Symbol = Symbol::Plain(Kind::Swr);

const GRT: Symbol = Symbol::Plain(Kind::Grt);

const TRL: Symbol = Symbol::Plain(Kind::Trl);

/// Group NWR with one work and group REV with two, of two records each.
const TWO_GROUPS: [Symbol; 12] = [
    HDR,
    Symbol::Grh(TransactionType::NewWork),
    NWR,
    SWR,
    GRT,
    Symbol::Grh(TransactionType::RevisedWork),
    REV,
    SWR,
    REV,
    SWR,
    GRT,
    TRL,
];

/// The most records, groups and records of a transaction.
type Numbers = (u32, u32, u32);

/// The largest numbers of limits.
const LARGEST: Numbers = (99_999_999, 99_999, 999_999);

/// Counts each record, if it may come.
fn count_each(tally: &mut Tally, symbols: &[Symbol]) -> Result<(), Bar> {
    for symbol in symbols {
        tally.admits(*symbol)?;
        tally.step(*symbol);
    }
    Ok(())
}

/// The tally of records within limits of these numbers, all of which may come.
fn tally_of(rt: &impl Abort, numbers: Numbers, symbols: &[Symbol]) -> Tally {
    let limits = Limits::new(numbers.0, numbers.1, numbers.2).expect(rt, "no limits");
    let mut tally = Tally::new(limits);
    check_equal(rt, count_each(&mut tally, symbols), Ok(()));
    tally
}

/// After so many records of the two groups a kind, a field of it, and its number, if it has one.
#[rattlefmt::skip]
static EXPECTED: [(usize, Kind, u8, Option<u64>); 25] = [
    (0, Kind::Hdr, 1, None),
    (0, Kind::Hdr, 8, None),
    (1, Kind::Grh, 2, None),
    (1, Kind::Grh, 3, Some(1)),
    (2, Kind::Nwr, 2, Some(0)),
    (2, Kind::Nwr, 3, Some(0)),
    (3, Kind::Swr, 2, Some(0)),
    (3, Kind::Swr, 3, Some(1)),
    (3, Kind::Swr, 4, None),
    (4, Kind::Nwr, 2, Some(1)),
    (4, Kind::Swr, 3, Some(2)),
    (4, Kind::Grt, 1, None),
    (4, Kind::Grt, 2, Some(1)),
    (4, Kind::Grt, 3, Some(1)),
    (4, Kind::Grt, 4, Some(4)),
    (4, Kind::Grt, 5, None),
    (6, Kind::Rev, 2, Some(0)),
    (6, Kind::Rev, 3, Some(0)),
    (10, Kind::Grt, 2, Some(2)),
    (10, Kind::Grt, 3, Some(2)),
    (10, Kind::Grt, 4, Some(6)),
    (11, Kind::Grh, 3, Some(3)),
    (11, Kind::Trl, 2, Some(2)),
    (11, Kind::Trl, 3, Some(3)),
    (11, Kind::Trl, 4, Some(12)),
];

#[test]
fn numbers_of_the_next_record(rt: HostRuntime) {
    for (count, kind, field, number) in &EXPECTED {
        let tally = tally_of(&rt, LARGEST, &TWO_GROUPS[..(*count).min(12)]);
        let found = tally.expects(*kind, *field);
        assert_eq!(rt; found, *number, "after {count}, {kind:?} {field}");
    }
}

/// After so many records of the two groups the place of the next one.
static PLACES: [(usize, Scope); 4] = [
    (0, Scope::File),
    (2, Scope::Group),
    (3, Scope::Transaction),
    (11, Scope::File),
];

#[test]
fn places_of_the_next_record(rt: HostRuntime) {
    for (count, place) in &PLACES {
        let tally = tally_of(&rt, LARGEST, &TWO_GROUPS[..(*count).min(12)]);
        check_equal(&rt, (count, tally.scope()), (count, *place));
    }
}

/// The stage of a tally, and how many records, groups and transactions it has counted.
fn counts_of(tally: &Tally) -> (Stage, u32, u32, u32) {
    (
        tally.stage(),
        tally.records(),
        tally.groups(),
        tally.transactions(),
    )
}

#[test]
fn counts_of_two_groups(rt: HostRuntime) {
    let none = tally_of(&rt, LARGEST, &[]);
    check_equal(&rt, counts_of(&none), (Stage::Start, 0, 0, 0));
    let second = tally_of(&rt, LARGEST, &TWO_GROUPS[..6]);
    check_equal(&rt, second.groups(), 2);
    let both = tally_of(&rt, LARGEST, &TWO_GROUPS);
    check_equal(&rt, counts_of(&both), (Stage::Ended, 12, 2, 3));
}

#[test]
fn stage_of_a_begun_agreement(rt: HostRuntime) {
    let tally = tally_of(&rt, LARGEST, &AGREED);
    let begun = Stage::Within(TransactionType::Agreement, TransactionStep::Agreed);
    check_equal(&rt, tally.stage(), begun);
}

/// What may come next.
#[derive(Clone, Copy, Debug)]
enum Next {
    /// This record.
    Record(Symbol),
    /// A record of this kind.
    Kind(Kind),
}

/// Whether it may come.
fn admits(tally: &Tally, next: Next) -> Result<(), Bar> {
    match next {
        Next::Record(symbol) => tally.admits(symbol),
        Next::Kind(kind) => tally.admits_kind(kind),
    }
}

const MSG: Symbol = Symbol::Plain(Kind::Msg);

const ACK: Symbol = Symbol::Plain(Kind::Ack);

const TER: Symbol = Symbol::Plain(Kind::Ter);

const GRH_AGR: Symbol = Symbol::Grh(TransactionType::Agreement);

const AGREED: [Symbol; 3] = [HDR, GRH_AGR, Symbol::Plain(Kind::Agr)];

const ACQUIRED: [Symbol; 5] = [
    HDR,
    GRH_AGR,
    Symbol::Plain(Kind::Agr),
    TER,
    Symbol::Ipa(Role::Acquirer),
];

const ASSIGNED: [Symbol; 5] = [
    HDR,
    GRH_AGR,
    Symbol::Plain(Kind::Agr),
    TER,
    Symbol::Ipa(Role::Assignor),
];

/// A group of one acknowledgement.
const ACKNOWLEDGED: [Symbol; 4] = [HDR, Symbol::Grh(TransactionType::Acknowledgement), ACK, GRT];

/// The same but for its GRT.
const ACKNOWLEDGING: [Symbol; 3] = [HDR, Symbol::Grh(TransactionType::Acknowledgement), ACK];

const RECORDS: Result<(), Bar> = Err(Bar::Limit(LimitKind::Records));

const GROUPS: Result<(), Bar> = Err(Bar::Limit(LimitKind::Groups));

const LONG: Result<(), Bar> = Err(Bar::Limit(LimitKind::Transaction));

const MISPLACED: Result<(), Bar> = Err(Bar::Misplaced);

/// Limits, records, and whether another may come after them.
type Barred = (Numbers, &'static [Symbol], Next, Result<(), Bar>);

#[rattlefmt::skip]
static ORDERS: [Barred; 8] = [
    (LARGEST, &[], Next::Record(TRL), MISPLACED),
    (LARGEST, &[], Next::Record(Symbol::Plain(Kind::Grh)), MISPLACED),
    (LARGEST, &[], Next::Kind(Kind::Grh), MISPLACED),
    (LARGEST, &[], Next::Kind(Kind::Hdr), Ok(())),
    (LARGEST, &[HDR], Next::Kind(Kind::Grh), Ok(())),
    (LARGEST, &AGREED, Next::Kind(Kind::Ipa), MISPLACED),
    (LARGEST, &ACQUIRED, Next::Kind(Kind::Ipa), Ok(())),
    (LARGEST, &ACQUIRED, Next::Record(GRT), MISPLACED),
];

/// Limits bar in their order, and a role decides how many records must still follow.
#[rattlefmt::skip]
static LIMITS: [Barred; 11] = [
    ((9, 1, 1), &ACKNOWLEDGING, Next::Record(MSG), LONG),
    ((9, 1, 1), &ACKNOWLEDGING, Next::Record(ACK), Ok(())),
    ((9, 1, 1), &ACKNOWLEDGING, Next::Record(SWR), MISPLACED),
    ((9, 1, 1), &ACKNOWLEDGED, Next::Record(GRH_AGR), RECORDS),
    ((9, 1, 1), &ACKNOWLEDGED, Next::Kind(Kind::Grh), GROUPS),
    ((9, 1, 1), &ACKNOWLEDGED, Next::Record(TRL), Ok(())),
    ((5, 1, 1), &ACKNOWLEDGING, Next::Record(ACK), RECORDS),
    ((5, 1, 1), &ACKNOWLEDGING, Next::Record(GRT), Ok(())),
    ((8, 1, 4), &ASSIGNED, Next::Kind(Kind::Ipa), Ok(())),
    ((8, 1, 4), &ASSIGNED, Next::Record(Symbol::Ipa(Role::Assignor)), RECORDS),
    ((8, 1, 4), &ASSIGNED, Next::Record(Symbol::Ipa(Role::Acquirer)), Ok(())),
];

/// Checks whether the record of each row may come.
fn check_bars(rt: &impl Abort, rows: &[Barred]) {
    for (numbers, symbols, next, answer) in rows {
        let tally = tally_of(rt, *numbers, symbols);
        assert_eq!(rt;
            admits(&tally, *next),
            *answer,
            "{next:?} after {symbols:?}"
        );
    }
}

#[test]
fn records_that_are_barred_by_their_order(rt: HostRuntime) {
    check_bars(&rt, &ORDERS);
}

#[test]
fn records_that_are_barred_by_limits(rt: HostRuntime) {
    check_bars(&rt, &LIMITS);
}
