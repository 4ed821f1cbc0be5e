//! Tests of drafts and records: that the calls answer as the written tables of CWR 2.1 have it.

ghost use Rattle.std.specs.Prelude.{◌≡◌, ◌<◌, ◌≤◌, List, IfOk, refl};
ghost use Rattle.cwr_fields.specs.declared.cell_types.CellType.TheVariants.{Constant};
ghost use Rattle.cwr_fields.specs.declared.cell_types.Word.TheVariants.{Edi};
ghost use Rattle.cwr_fields.specs.Format.Codes.{word_text};

use crate::checks::check_equal;
use cwr_fields::{
    Cell, CellFault, CellType, CivilDate, DateCell, Flag, Kind, Number, TimeOfDay,
    TransactionStatus, TransactionType, Word,
};
use cwr_lines::{Draft, DraftFault, Record, SetFault};
use std::alloc::AllocError;
use std::fmt::{Debug, Display};
use std::process::Abort;

/// The version of the EDI standard, as a cell type.
#[derive(Clone, Copy)]
struct EdiVersion;

impl Cell for EdiVersion {
    ghost TYPE = { Constant Edi };

    ghost WIDTH = { 5 };

    ghost text = { λ _. word_text Edi };

    ghost width = { λ _. refl };

    ghost fits = { λ _. refl };

    ghost equal = { λ x y e. refl };

    const TYPE: CellType = CellType::Constant(Word::Edi);

    const WIDTH: usize = 5;

    fn read(cell: &[u8]) -> Option<Self> {
        (cell == b"01.10".as_slice()).then_some(EdiVersion)
    }

    fn write(&self, cell: &mut [u8]) {
        cell.copy_from_slice(b"01.10");
    }
}

/// Why a draft didn't become a record. `None` where it did.
fn fault_of(draft: &Draft) -> Option<DraftFault> {
    draft.done().err()
}

/// A field, the text that is set in it, and the answer.
type Set<'a> = (u8, &'a [u8], Result<(), SetFault>);

/// Sets texts in a draft, each of which gives the answer beside it.
fn check_sets(rt: &impl Abort, draft: &mut Draft, texts: &[Set<'_>]) {
    for (j, text, answer) in texts {
        check_equal(rt, (j, draft.set(*j, text)), (j, *answer));
    }
}

/// The record of a kind in which these texts are set, some of which are refused.
fn record_with(rt: &impl Abort, kind: Kind, texts: &[Set<'_>]) -> Record {
    let mut draft = Draft::blank(kind);
    check_sets(rt, &mut draft, texts);
    draft.done().expect(rt, "unfit")
}

/// Checks that the cells of a record are these.
fn check_cells(rt: &impl Abort, record: &Record, cells: &[(u8, Option<&[u8]>)]) {
    let view = record.view();
    for (j, cell) in cells {
        check_equal(rt, (j, view.cell(*j)), (j, *cell));
    }
}

#[test]
fn carried_text_has_seven_hundred_bytes(rt: HostRuntime) {
    let text = [b'A'; 701];
    let whole: &[u8] = &text[..700];
    let texts = [
        (4, text.as_slice(), Err(SetFault::TooWide)),
        (4, whole, Ok(())),
    ];
    let record = record_with(&rt, Kind::Ind, &texts);
    check_cells(&rt, &record, &[(4, Some(whole))]);
}

const NOT_A_CODE: Result<(), SetFault> = Err(SetFault::Cell(CellFault::NotACode));

const BLANK: Result<(), SetFault> = Err(SetFault::Cell(CellFault::Blank));

const CONTROL: Result<(), SetFault> = Err(SetFault::Cell(CellFault::Control));

const NOT_CONSTANT: Result<(), SetFault> = Err(SetFault::Cell(CellFault::NotConstant));

static REFUSED: [Set<'static>; 9] = [
    (0, b"20240102", Err(SetFault::NoSuchField)),
    (14, b"20240102", Err(SetFault::NoSuchField)),
    (255, b"", Err(SetFault::NoSuchField)),
    (1, b"ACK", Err(SetFault::Derived)),
    (2, b"00000000", Err(SetFault::Derived)),
    (2, b"000000000", Err(SetFault::Derived)),
    (13, b"ASX", Err(SetFault::TooWide)),
    (13, b"ZZ", NOT_A_CODE),
    (13, b"", BLANK),
];

/// That a required cell is blank.
fn blank_at(field: u8) -> Option<DraftFault> {
    Some(DraftFault {
        field,
        fault: CellFault::Blank,
    })
}

#[test]
fn refuses_texts(rt: HostRuntime) {
    let mut draft = Draft::blank(Kind::Ack);
    check_sets(&rt, &mut draft, &REFUSED);
    check_equal(&rt, fault_of(&draft), blank_at(6));
}

/// The required cells of an acknowledgement, and the next one after each.
static REQUIRED: [(u8, &[u8], Option<u8>); 4] = [
    (6, b"00001", Some(7)),
    (7, b"00000000", Some(8)),
    (8, b"NWR", Some(13)),
    (13, b"AS", None),
];

#[test]
fn required_cells_one_after_the_other(rt: HostRuntime) {
    let mut draft = Draft::blank(Kind::Ack);
    for (j, text, next) in &REQUIRED {
        check_equal(&rt, draft.set(*j, text), Ok(()));
        check_equal(&rt, fault_of(&draft), next.and_then(blank_at));
    }
}

/// The texts of an acknowledgement, and two that are refused after them.
static ACKNOWLEDGEMENT: [Set<'static>; 7] = [
    (6, b"00001", Ok(())),
    (7, b"00000000", Ok(())),
    (8, b"NWR", Ok(())),
    (13, b"AS", Ok(())),
    (9, b"BLUE RIVER", Ok(())),
    (13, b"ZZ", NOT_A_CODE),
    (9, b"BLACK\tRIVER", CONTROL),
];

/// Its cells.
#[rattlefmt::skip]
static CELLS: [(u8, Option<&[u8]>); 15] = [
    (0, None),
    (1, None),
    (2, None),
    (3, None),
    (4, Some(b"        ")),
    (5, Some(b"      ")),
    (6, Some(b"00001")),
    (7, Some(b"00000000")),
    (8, Some(b"NWR")),
    (9, Some(b"BLUE RIVER                                                  ")),
    (10, Some(b"                    ")),
    (12, Some(b"        ")),
    (13, Some(b"AS")),
    (14, None),
    (255, None),
];

#[test]
fn shows_cells(rt: HostRuntime) {
    let record = record_with(&rt, Kind::Ack, &ACKNOWLEDGEMENT);
    check_equal(&rt, record.view().kind(), Kind::Ack);
    check_cells(&rt, &record, &CELLS);
    let copy = record.view().to_record();
    check_equal(&rt, copy.view().kind(), Kind::Ack);
    check_cells(&rt, &copy, &[(8, Some(b"NWR"))]);
}

/// Whether a cell of a record is read as a value of the type.
fn is_read<C: Cell + Drop>(record: &Record, j: u8) -> bool
    requires least { 0 < C.WIDTH }
    requires most { C.WIDTH ≤ 10 }
{
    record.view().read::<C>(j).is_some()
}

#[test]
fn reads_typed_cells(rt: HostRuntime) {
    let record = record_with(&rt, Kind::Ack, &ACKNOWLEDGEMENT);
    let view = record.view();
    check_equal(&rt, view.read::<DateCell>(4), Some(DateCell::Blank));
    check_equal(&rt, view.read::<Number<5>>(6).map(u64::from), Some(1));
    let accepted = Some(TransactionStatus::RegistrationAccepted);
    check_equal(&rt, view.read::<TransactionStatus>(13), accepted);
}

#[test]
fn cells_of_another_type_are_not_read(rt: HostRuntime) {
    let record = record_with(&rt, Kind::Ack, &ACKNOWLEDGEMENT);
    assert!(rt; !is_read::<EdiVersion>(&record, 6));
    assert!(rt; !is_read::<Number<8>>(&record, 6));
    assert!(rt; !is_read::<CivilDate>(&record, 4));
    assert!(rt; !is_read::<TimeOfDay>(&record, 5));
    assert!(rt; !is_read::<Flag>(&record, 13));
    assert!(rt; !is_read::<TransactionType>(&record, 13));
}

static GROUP: [Set<'static>; 3] = [
    (2, b"ACK", Ok(())),
    (4, b"02.20", NOT_CONSTANT),
    (5, b"0000000001", Ok(())),
];

static HEADER: [Set<'static>; 6] = [
    (2, b"PB", Ok(())),
    (3, b"123456789", Ok(())),
    (4, b"MUSIC HOUSE", Ok(())),
    (6, b"20240102", Ok(())),
    (7, b"101500", Ok(())),
    (8, b"20240103", Ok(())),
];

#[test]
fn constants_stand(rt: HostRuntime) {
    let group = record_with(&rt, Kind::Grh, &GROUP);
    check_cells(&rt, &group, &[(4, Some(b"02.10"))]);
    let header = record_with(&rt, Kind::Hdr, &HEADER);
    for (j, is_version) in [(5, true), (4, false), (1, false), (10, false)] {
        check_equal(&rt, (j, is_read::<EdiVersion>(&header, j)), (j, is_version));
    }
}

/// Checks the text of a fault.
fn check_text(rt: &(impl Abort + AllocGlobal), fault: impl Display + Copy, wanted: &str) {
    let text = format!(in rt.alloc(); "{fault}").expect(rt, "no memory");
    check_equal(rt, text.as_str(), wanted);
}

static FAULTS: [(SetFault, &str); 5] = [
    (SetFault::NoSuchField, "no such field"),
    (SetFault::Derived, "the field is derived"),
    (SetFault::TooWide, "wider than the field"),
    (SetFault::Cell(CellFault::Control), "cell control"),
    (SetFault::Cell(CellFault::OverShare), "cell over share"),
];

#[test]
fn faults_are_printed(rt: HostRuntime) {
    for (fault, text) in &FAULTS {
        check_text(&rt, *fault, text);
    }
    let blank = fault_of(&Draft::blank(Kind::Ack)).expect(&rt, "no fault");
    check_text(&rt, blank, "field 6: cell blank");
}

#[test]
fn trailers_are_records(rt: HostRuntime) {
    let record = record_with(&rt, Kind::Grt, &[]);
    check_equal(&rt, record.view().kind(), Kind::Grt);
    check_cells(&rt, &record, &[(4, None), (5, Some(b"   "))]);
    assert!(rt; Draft::blank(Kind::Trl).done().is_ok());
}

/// A copy is the same record.
fn copy_of(source: &Record) -> Result<Record, AllocError>
    ensures { IfOk result (λ copy. copy ≡ source.now) }
{
    source.clone()
}

/// Checks what is shown to programmers.
fn check_shown(rt: &(impl Abort + AllocGlobal), value: &impl Debug) {
    let text = format!(in rt.alloc(); "{value:?}").expect(rt, "no memory");
    let shown = r#"Grt {"currency": "E\"R", "total monetary value": "          "}"#;
    check_equal(rt, text.as_str(), shown);
}

#[test]
fn shown_to_programmers(rt: HostRuntime) {
    let mut draft = Draft::blank(Kind::Grt);
    check_equal(&rt, draft.set(5, b"E\"R"), Ok(()));
    check_shown(&rt, &draft);
    let record = draft.done().expect(&rt, "unfit");
    check_shown(&rt, &record);
    let copy = copy_of(&record).expect(&rt, "no memory");
    check_shown(&rt, &copy.view());
}
