//! Tests of runs over files whose texts are known.

ghost use Rattle.std.specs.Prelude.{◌≡◌, None};

use cwr_devices::Counted;
use cwr_endings::{Status, Stop, Wanted};
use cwr_files::{Fault, MemoryStore, Unwatched, open_input};
use cwr_json::Encoding;
use cwr_reports::{Asked, Telling, export, report_several};
use cwr_shape::Limits;
use cwr_transform::{Import, Repair, Union, import_file, join_files, repair_file};
use cwr_worked::texts::{ONE_ACKNOWLEDGEMENT, TWO_GROUPS, canonical};
use std::io::Cursor;
use std::process::Abort;

/// How a run over several files judges them: a verdict that is good, and nothing more, is good.
fn asked(rt: &(impl Abort + AllocGlobal)) -> Asked
    ensures { result.wanted.fail_on ≡ None }
{
    Asked {
        alloc: rt.alloc(),
        limits: Limits::new(99_999_999, 99_999, 999_999).expect(&rt, "largest limits"),
        wanted: Wanted {
            whole: false,
            fail_on: None,
        },
        quiet: false,
        faults: false,
        advised: false,
        all: false,
        repeated: 0,
    }
}

/// Two good transmissions, one that is refused, and one that is cut off.
fn store(rt: &(impl Abort + AllocGlobal)) -> MemoryStore {
    let alloc = rt.alloc();
    let good = canonical(alloc, ONE_ACKNOWLEDGEMENT).expect(&rt, "memory for a text");
    let works = canonical(alloc, TWO_GROUPS).expect(&rt, "memory for a text");
    let mut store = MemoryStore::new(alloc);
    let cut = match ONE_ACKNOWLEDGEMENT {
        [header, group, ..] => canonical(alloc, &[*header, *group]),
        _ => canonical(alloc, &[]),
    }
    .expect(&rt, "memory for a text");
    store
        .hold("good", good.as_slice())
        .expect(&rt, "memory for a file");
    store
        .hold("works", works.as_slice())
        .expect(&rt, "memory for a file");
    store
        .hold("refused", b"HDRPB\r\n")
        .expect(&rt, "memory for a file");
    store
        .hold("cut", cut.as_slice())
        .expect(&rt, "memory for a file");
    store
}

/// Names of files, what a run over them prints, and its status.
const SEVERAL: &[(&[&str], &[u8], Status)] = &[
    (
        &["good", "works"],
        b"good: GOOD groups 1 transactions 1 records 5\nworks: GOOD groups 2 transactions 3 records 12\nFILES 2 good 2 refused 0 truncated 0 failed 0\n",
        Status::Good,
    ),
    (
        &["good", "cut"],
        b"good: GOOD groups 1 transactions 1 records 5\ncut: TRUNCATED records 2\nFILES 2 good 1 refused 0 truncated 1 failed 0\n",
        Status::Refused,
    ),
    (
        &["cut", "works"],
        b"cut: TRUNCATED records 2\nworks: GOOD groups 2 transactions 3 records 12\nFILES 2 good 1 refused 0 truncated 1 failed 0\n",
        Status::Refused,
    ),
    (
        &["good", "nothing", "works"],
        b"good: GOOD groups 1 transactions 1 records 5\nworks: GOOD groups 2 transactions 3 records 12\nFILES 3 good 2 refused 0 truncated 0 failed 1\n",
        Status::Fault,
    ),
];

#[test]
fn each_file_counts(rt: HostRuntime) {
    for (row, (names, printed, status)) in SEVERAL.iter().enumerate() {
        let asked = asked(&rt);
        let mut store = store(&rt);
        let (lines, ended) = report_several(
            &mut store,
            &asked,
            false,
            names,
            Cursor::new(b"".as_slice()),
            &mut Unwatched,
            Counted::new(Vec::new(rt.alloc())),
            &mut Vec::new(rt.alloc()),
        );
        assert_eq!(rt; ended, Ok(*status), "row {row}");
        assert_eq!(rt; lines.into_inner().as_slice(), *printed, "row {row}");
    }
}

/// What lies under the name, and that nothing lies under the first name of its part.
fn text_under<'s>(store: &'s MemoryStore, name: &str) -> Option<&'s [u8]> {
    match name {
        "out" if store.text("out.part").is_some() => None,
        name => store.text(name),
    }
}

/// A run that writes a file, the text that this file then holds, where it holds one, and the status.
const JOINS: &[(&[&str], Option<&[&[u8]]>, Status)] = &[
    (&["good"], Some(ONE_ACKNOWLEDGEMENT), Status::Good),
    (&["works"], Some(TWO_GROUPS), Status::Good),
    (&["good", "cut"], None, Status::Refused),
    (&["refused"], None, Status::Refused),
];

#[test]
fn joined_text_lies_under_its_name(rt: HostRuntime) {
    for (row, (names, lines, status)) in JOINS.iter().enumerate() {
        let mut store = store(&rt);
        let union = Union {
            limits: asked(&rt).limits,
            wanted: asked(&rt).wanted,
            out: "out",
            only_new: false,
            same_sender: false,
            repeated: 0,
        };
        let (_, ended) = join_files(
            &mut store,
            rt.alloc(),
            &union,
            names,
            Cursor::new(b"".as_slice()),
            &mut Unwatched,
            Counted::new(Vec::new(rt.alloc())),
            &mut Vec::new(rt.alloc()),
        );
        assert_eq!(rt; ended, Ok(*status), "row {row}");
        let wanted = match lines {
            Some(lines) => Some(canonical(rt.alloc(), lines).expect(&rt, "memory for a text")),
            None => None,
        };
        let wanted = match &wanted {
            Some(text) => Some(text.as_slice()),
            None => None,
        };
        assert_eq!(rt; text_under(&store, "out"), wanted, "row {row}");
    }
}

#[test]
fn an_input_is_not_written_to(rt: HostRuntime) {
    let mut store = store(&rt);
    let repair = Repair {
        limits: asked(&rt).limits,
        wanted: asked(&rt).wanted,
        file: Some("good"),
        only_new: false,
        anyway: false,
    };
    let standard = Cursor::new(b"".as_slice());
    let input = open_input(&mut store, repair.file, &mut Some(standard), Unwatched).expect(
        &rt,
        "the input",
    );
    let (_, ended) = repair_file(
        &mut store,
        rt.alloc(),
        &repair,
        input,
        "good",
        Counted::new(Vec::new(rt.alloc())),
        &mut Vec::new(rt.alloc()),
    );
    let is_input = matches!(ended, Err(Stop::Fault(Fault::IsInput(_))));
    assert!(rt; is_input, "{ended:?}");
}

#[test]
fn numbers_are_put_right_in_a_file(rt: HostRuntime) {
    let mut store = store(&rt);
    let repair = Repair {
        limits: asked(&rt).limits,
        wanted: asked(&rt).wanted,
        file: Some("works"),
        only_new: true,
        anyway: false,
    };
    let standard = Cursor::new(b"".as_slice());
    let input = open_input(&mut store, repair.file, &mut Some(standard), Unwatched).expect(
        &rt,
        "the input",
    );
    let (_, ended) = repair_file(
        &mut store,
        rt.alloc(),
        &repair,
        input,
        "out",
        Counted::new(Vec::new(rt.alloc())),
        &mut Vec::new(rt.alloc()),
    );
    assert_eq!(rt; ended, Ok(Status::Good));
    let works = canonical(rt.alloc(), TWO_GROUPS).expect(&rt, "memory for a text");
    assert_eq!(rt; text_under(&store, "out"), Some(works.as_slice()));
}

#[test]
fn data_is_written_and_read_back(rt: HostRuntime) {
    let mut store = store(&rt);
    let telling = Telling::Data {
        encoding: Encoding::Latin1,
        numbers: false,
    };
    let standard = Cursor::new(b"".as_slice());
    let error = &mut Vec::new(rt.alloc());
    let ended = export(
        &mut store,
        &asked(&rt),
        telling,
        Some("works"),
        "data",
        standard,
        Unwatched,
        error,
    );
    assert_eq!(rt; ended, Ok(Status::Good));
    let import = Import {
        limits: asked(&rt).limits,
        encoding: Encoding::Latin1,
        most: 1_000_000,
    };
    let standard = Cursor::new(b"".as_slice());
    let input = open_input(&mut store, Some("data"), &mut Some(standard), Unwatched).expect(
        &rt, "the data",
    );
    let ended = import_file(&mut store, rt.alloc(), &import, input, "out", error);
    assert_eq!(rt; ended, Ok(Status::Good));
    let works = canonical(rt.alloc(), TWO_GROUPS).expect(&rt, "memory for a text");
    assert_eq!(rt; text_under(&store, "out"), Some(works.as_slice()));
}
