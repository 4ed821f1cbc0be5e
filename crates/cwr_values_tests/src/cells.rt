//! What cells hold, texts and the check digit of work codes by example.

use crate::checks::check_equal;
use cwr_devices::DeviceFault;
use cwr_fields::{CellFault, CellType, Word, first_control, fits, iswc_ok, trimmed, width_of};
use std::fmt::Display;
use std::process::Abort;

/// What is reported of the cell, or nothing where it isn't as wide as its type.
fn fault_in(ty: CellType, cell: &[u8]) -> Option<Result<(), CellFault>> {
    match width_of(ty) {
        Some(width) if width != cell.len() => None,
        _ => Some(fits(ty, cell)),
    }
}

const CELLS: &[(CellType, &[u8], Result<(), CellFault>)] = &[
    (CellType::OptDate, b"20230229", Err(CellFault::NotADate)),
    (CellType::OptDate, b"20240229", Ok(())),
    (CellType::OptDate, b"00000000", Ok(())),
    (CellType::OptDate, b"        ", Ok(())),
    (CellType::Date, b"00000000", Err(CellFault::NotADate)),
    (CellType::Time, b"235959", Ok(())),
    (CellType::Time, b"240000", Err(CellFault::NotATime)),
    (CellType::OptDuration, b"995959", Ok(())),
    (CellType::Share, b"10000", Ok(())),
    (CellType::Share, b"10001", Err(CellFault::OverShare)),
    (CellType::Share, b"1000 ", Err(CellFault::NotDigits)),
    (CellType::Flag, b"X", Err(CellFault::NotACode)),
    (CellType::Required, b"   ", Err(CellFault::Blank)),
    (CellType::Text, b"\t", Err(CellFault::Control)),
    (CellType::Number, b"", Err(CellFault::Blank)),
    (CellType::Constant(Word::Edi), b"01.10", Ok(())),
    (
        CellType::Constant(Word::Group),
        b"01.10",
        Err(CellFault::NotConstant),
    ),
];

#[test]
fn worked_cells(rt: HostRuntime) {
    for (ty, cell, answer) in CELLS {
        check_equal(&rt, (ty, fault_in(*ty, cell)), (ty, Some(*answer)));
    }
}

const FAULTS: &[(CellFault, &str)] = &[
    (CellFault::Blank, "[        cell blank]"),
    (CellFault::Control, "[      cell control]"),
    (CellFault::NotDigits, "[   cell not digits]"),
    (CellFault::NotADate, "[   cell not a date]"),
    (CellFault::NotATime, "[   cell not a time]"),
    (CellFault::OverShare, "[   cell over share]"),
    (CellFault::NotACode, "[   cell not a code]"),
    (CellFault::NotConstant, "[ cell not constant]"),
];

/// Checks what is printed of a fault.
fn check_text(rt: &(impl Abort + AllocGlobal), fault: impl Display + Copy, wanted: &str) {
    let printed = format!(in rt.alloc(); "[{fault:>18}]").expect(rt, "no memory");
    check_equal(rt, printed.as_str(), wanted);
}

#[test]
fn faults_are_printed(rt: HostRuntime) {
    for (fault, text) in FAULTS {
        check_text(&rt, *fault, text);
    }
    check_text(&rt, DeviceFault, "[ the device failed]");
}

#[test]
fn texts(rt: HostRuntime) {
    let spaced: [&[u8]; 2] = [trimmed(b"AB  "), trimmed(b"   ")];
    let wanted: [&[u8]; 2] = [b"AB", b""];
    check_equal(&rt, spaced, wanted);
    let controls = (first_control(&[65, 127]), first_control(&[128, 255]));
    check_equal(&rt, controls, (Some(1), None));
}

#[test]
fn work_codes(rt: HostRuntime) {
    for code in [b"T0345246801", b"T0000000009", b"T0000000010"] {
        assert!(rt; iswc_ok(code));
    }
    for code in [b"T0345246802", b"T0000000000"] {
        assert!(rt; !iswc_ok(code));
    }
    assert!(rt; !iswc_ok(b""));
}
