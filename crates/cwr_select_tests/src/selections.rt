//! What is selected of a worked transmission of a new work and two revised ones.

use cwr_devices::{Counted, InMemory};
use cwr_moments::Moment;
use cwr_select::{
    Both, ByKind, ByNumber, ByParty, ByPlace, Changes, Chooses, Listed, Others, SelectReport,
    WorkKind, number_cell, select,
};
use cwr_shape::Limits;
use cwr_tools::ToolFault;
use cwr_worked::lines::{GRH_NWR, GRH_REV_2, HDR, NWR_0, REV_0, REV_1, SWR_0_1, SWR_1_1};
use cwr_worked::texts::{TWO_GROUPS, canonical};
use std::process::Abort;

/// What a run wants: the lines that are written, and how many transactions are selected.
type Wanted = (&'static [&'static [u8]], u32);

/// GRH of type REV, the first group.
const GRH_REV: &[u8] = b"GRHREV0000102.100000000001";

/// REV of the last work, which opens transaction 0.
const REV_0_OF_THE_LAST: &[u8] =
    b"REV0000000000000000GREEN SEA                                                     W0003                                                        ORI";

/// HDR with another creation date and time, before its transmission date.
const HDR_OF_THE_SECOND: &[u8] =
    b"HDRPB123456789MUSIC HOUSE                                  01.102024010209000020240103";

/// HDR with a creation date after its transmission date, which is raised to it.
const HDR_OF_MAY: &[u8] =
    b"HDRPB123456789MUSIC HOUSE                                  01.102024050109000020240501";

#[rattlefmt::skip]
const THE_NEW: Wanted = (
    &[HDR, GRH_NWR, NWR_0, SWR_0_1, b"GRT000010000000100000004", b"TRL000010000000100000006"],
    1,
);

#[rattlefmt::skip]
const THE_LAST: Wanted = (
    &[HDR, GRH_REV, REV_0_OF_THE_LAST, SWR_0_1, b"GRT000010000000100000004", b"TRL000010000000100000006"],
    1,
);

#[rattlefmt::skip]
const OF_THE_SECOND: Wanted = (
    &[HDR_OF_THE_SECOND, GRH_NWR, NWR_0, SWR_0_1, b"GRT000010000000100000004", b"TRL000010000000100000006"],
    1,
);

#[rattlefmt::skip]
const OF_MAY: Wanted = (
    &[HDR_OF_MAY, GRH_NWR, NWR_0, SWR_0_1, b"GRT000010000000100000004", b"TRL000010000000100000006"],
    1,
);

/// REV of the new work.
const REV_OF_THE_NEW: &[u8] =
    b"REV0000000000000000BLUE RIVER                                                    W0001                                        POP             ORI";

/// GRH of type NWR, the second group.
const GRH_NWR_2: &[u8] = b"GRHNWR0000202.100000000001";

/// NWR of the revised works.
const NWR_OF_THE_SECOND: &[u8] =
    b"NWR0000000000000000RED HILL                                                      W0002                                                        ORI";

const NWR_OF_THE_LAST: &[u8] =
    b"NWR0000000100000000GREEN SEA                                                     W0003                                                        ORI";

#[rattlefmt::skip]
const THE_NEW_REVISED: Wanted = (
    &[HDR, GRH_REV, REV_OF_THE_NEW, SWR_0_1, b"GRT000010000000100000004", b"TRL000010000000100000006"],
    1,
);

#[rattlefmt::skip]
const OF_THE_SECOND_REVISED: Wanted = (
    &[HDR_OF_THE_SECOND, GRH_REV, REV_OF_THE_NEW, SWR_0_1, b"GRT000010000000100000004", b"TRL000010000000100000006"],
    1,
);

/// All works as new ones, in two groups of one type.
#[rattlefmt::skip]
const ALL_NEW: Wanted = (
    &[
        HDR, GRH_NWR, NWR_0, SWR_0_1, b"GRT000010000000100000004",
        GRH_NWR_2, NWR_OF_THE_SECOND, SWR_0_1, NWR_OF_THE_LAST, SWR_1_1, b"GRT000020000000200000006",
        b"TRL000020000000300000012",
    ],
    3,
);

/// And as revised ones.
#[rattlefmt::skip]
const ALL_REVISED: Wanted = (
    &[
        HDR, GRH_REV, REV_OF_THE_NEW, SWR_0_1, b"GRT000010000000100000004",
        GRH_REV_2, REV_0, SWR_0_1, REV_1, SWR_1_1, b"GRT000020000000200000006",
        b"TRL000020000000300000012",
    ],
    3,
);

const ALL: Wanted = (TWO_GROUPS, 3);

const NOTHING: Wanted = (&[], 0);

/// Checks what is selected of the worked transmission.
fn check_selected<C: Chooses>(
    rt: &(impl Abort + AllocGlobal),
    changes: Changes,
    choice: &C,
    wanted: Wanted,
) {
    let text = canonical(rt.alloc(), TWO_GROUPS).expect(rt, "no memory");
    let limits = Limits::new(12, 2, 2).expect(rt, "no limits");
    let mut reader = InMemory::new(text.as_slice());
    let writer = Counted::new(Vec::new(rt.alloc()));
    let (writer, answer) = select(rt.alloc(), limits, &mut reader, changes, choice, writer);
    let report: Result<SelectReport, ToolFault> = Ok(SelectReport {
        selected: wanted.1,
        transactions: 3,
    });
    assert_eq!(rt; answer, report);
    let lines = canonical(rt.alloc(), wanted.0).expect(rt, "no memory");
    assert!(rt; writer.into_inner().as_slice() == lines.as_slice());
}

/// A list of one number.
fn listed(rt: &(impl Abort + AllocGlobal), number: &[u8]) -> Listed<[u8; 20]> {
    let mut numbers = Vec::new(rt.alloc());
    let cell = number_cell(number).expect(rt, "too wide");
    numbers.push(cell).expect(rt, "no memory");
    Listed::new(numbers)
}

/// A list of one place.
fn placed(rt: &(impl Abort + AllocGlobal), group: u32, place: u32) -> Listed<(u32, u32)> {
    let mut places = Vec::new(rt.alloc());
    places.push((group, place)).expect(rt, "no memory");
    Listed::new(places)
}

const UNCHANGED: Changes = Changes {
    created: None,
    works: None,
};

/// HDR is created at that moment.
fn created(moment: &str) -> Changes {
    Changes {
        created: Moment::read(moment),
        works: None,
    }
}

/// Works are sent so.
fn sent_as(works: WorkKind) -> Changes {
    Changes {
        created: None,
        works: Some(works),
    }
}

const NEW_WORKS: ByKind = ByKind {
    agreements: false,
    new_works: true,
    revised_works: false,
    acknowledgements: false,
};

#[test]
fn numbers_are_whole(rt: HostRuntime) {
    check_selected(&rt, UNCHANGED, &ByNumber(&listed(&rt, b"W0001")), THE_NEW);
    check_selected(&rt, UNCHANGED, &ByNumber(&listed(&rt, b"W0003")), THE_LAST);
    check_selected(&rt, UNCHANGED, &ByNumber(&listed(&rt, b"W000")), NOTHING);
}

#[test]
fn places_are_counted(rt: HostRuntime) {
    check_selected(&rt, UNCHANGED, &ByPlace(&placed(&rt, 2, 1)), THE_LAST);
    check_selected(&rt, UNCHANGED, &ByPlace(&placed(&rt, 1, 1)), NOTHING);
}

#[test]
fn kinds_and_others(rt: HostRuntime) {
    check_selected(&rt, UNCHANGED, &NEW_WORKS, THE_NEW);
    let last = placed(&rt, 2, 1);
    check_selected(
        &rt,
        UNCHANGED,
        &Both(Others(NEW_WORKS), ByPlace(&last)),
        THE_LAST,
    );
    check_selected(&rt, UNCHANGED, &Others(ByPlace(&placed(&rt, 3, 0))), ALL);
}

#[test]
fn parties_have_digits(rt: HostRuntime) {
    let party = ByParty::new(b"00014107338").expect(&rt, "no party");
    check_selected(&rt, UNCHANGED, &party, NOTHING);
    assert!(rt; ByParty::new(b"000").is_none());
    assert!(rt; ByParty::new(b"1410733A").is_none());
}

#[test]
fn moments_are_of_headers(rt: HostRuntime) {
    let second = created("20240102T090000");
    check_selected(&rt, second, &NEW_WORKS, OF_THE_SECOND);
    check_selected(&rt, created("20240501T090000"), &NEW_WORKS, OF_MAY);
    let revised = Changes {
        works: Some(WorkKind::RevisedWork),
        ..second
    };
    check_selected(&rt, revised, &NEW_WORKS, OF_THE_SECOND_REVISED);
}

#[test]
fn works_are_chosen_as_they_were(rt: HostRuntime) {
    let revised = sent_as(WorkKind::RevisedWork);
    check_selected(&rt, revised, &NEW_WORKS, THE_NEW_REVISED);
    check_selected(&rt, revised, &ByNumber(&listed(&rt, b"W0003")), THE_LAST);
    let none = placed(&rt, 3, 0);
    check_selected(&rt, revised, &Others(ByPlace(&none)), ALL_REVISED);
    check_selected(
        &rt,
        sent_as(WorkKind::NewWork),
        &Others(ByPlace(&none)),
        ALL_NEW,
    );
}
