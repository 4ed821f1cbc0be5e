//! Searches that look at many bytes at a time, and quick tests of cells, by example.

use crate::checks::check_equal;
use cwr_fields::{
    CellType, SpelledPair, Table, Word, first_control, fits, is_plain, surely_fits, width_of,
};

/// Where the first control byte of a text is, and whether there is none.
fn controls_in(text: &[u8]) -> (Option<usize>, bool) {
    (first_control(text), is_plain(text))
}

#[test]
fn control_bytes_at_each_place(rt: HostRuntime) {
    for len in 0..131 {
        let mut text = [b'A'; 130];
        check_equal(&rt, controls_in(&text[..len]), (None, true));
        for at in 0..len {
            text[at] = 31;
            check_equal(&rt, controls_in(&text[..len]), (Some(at), false));
            text[at] = b'A';
        }
    }
}

#[test]
fn bytes_beside_control_bytes(rt: HostRuntime) {
    for byte in [0, 31, 127] {
        check_equal(&rt, controls_in(&[byte; 40]), (Some(0), false));
    }
    for byte in [32, 126, 128, 255] {
        check_equal(&rt, controls_in(&[byte; 40]), (None, true));
    }
}

/// What the quick test and the exact one say of the cell. `None` where it isn't as wide as its type.
fn told_of(ty: CellType, cell: &[u8]) -> Option<(bool, bool)> {
    match width_of(ty) {
        Some(width) if width != cell.len() => None,
        _ if !is_plain(cell) => None,
        _ => Some((surely_fits(ty, cell), fits(ty, cell).is_ok())),
    }
}

static GOOD: [(CellType, &[u8]); 21] = [
    (CellType::Text, b"   "),
    (CellType::Required, b"  A"),
    (CellType::Number, b"0190"),
    (CellType::OptNumber, b"    "),
    (CellType::OptNumber, b"0190"),
    (CellType::Date, b"20240229"),
    (CellType::OptDate, b"        "),
    (CellType::OptDate, b"00000000"),
    (CellType::OptDate, b"20240229"),
    (CellType::Time, b"235959"),
    (CellType::OptTime, b"      "),
    (CellType::OptDuration, b"      "),
    (CellType::OptDuration, b"995959"),
    (CellType::Share, b"     "),
    (CellType::Share, b"10000"),
    (CellType::Share, b"09999"),
    (CellType::Flag, b"U"),
    (CellType::Flag, b" "),
    (CellType::Code(Table::Sign), b"E"),
    (CellType::OptCode(Table::Sign), b" "),
    (CellType::Constant(Word::Edi), b"01.10"),
];

static BAD: [(CellType, &[u8]); 22] = [
    (CellType::Required, b"   "),
    (CellType::Number, b"    "),
    (CellType::Number, b"019/"),
    (CellType::Number, b"019:"),
    (CellType::OptNumber, b"019 "),
    (CellType::OptNumber, b" 190"),
    (CellType::Date, b"20230229"),
    (CellType::OptDate, b"2024 229"),
    (CellType::OptDate, b"       0"),
    (CellType::Time, b"240000"),
    (CellType::OptTime, b"     0"),
    (CellType::OptDuration, b"996000"),
    (CellType::Share, b"10001"),
    (CellType::Share, b"20000"),
    (CellType::Share, b"0000 "),
    (CellType::Share, b" 0000"),
    (CellType::Flag, b"Z"),
    (CellType::Flag, b"y"),
    (CellType::Code(Table::Sign), b" "),
    (CellType::Code(Table::Version), b"OR "),
    (CellType::OptCode(Table::Sign), b"X"),
    (CellType::Constant(Word::Edi), b"02.10"),
];

#[test]
fn quick_tests_of_each_type(rt: HostRuntime) {
    for (ty, cell) in &GOOD {
        check_equal(&rt, (ty, told_of(*ty, cell)), (ty, Some((true, true))));
    }
    for (ty, cell) in &BAD {
        check_equal(&rt, (ty, told_of(*ty, cell)), (ty, Some((false, false))));
    }
}

/// Texts, pairs of numbers, and whether they are in the text. A pair is asked for after those before it.
static PAIRS: [(&[u8; 16], u64, u64, bool); 15] = [
    (b"0000000000000000", 0, 0, true),
    (b"0000001299999999", 12, 99999999, true),
    (b"0000001200000000", 12, 100000000, true),
    (b"0000000900000099", 9, 99, true),
    (b"0000001000000100", 10, 100, true),
    (b"0000001100000101", 11, 101, true),
    (b"0000001200000007", 12, 7, true),
    (b"0000001200000007", 12, 8, false),
    (b"0000001200000007", 12, 7, true),
    (b"0000001100000007", 12, 7, false),
    (b"0000001200000008", 12, 7, false),
    (b"0000001A00000007", 12, 7, false),
    (b"      1200000007", 12, 7, false),
    (b"000000120000000/", 12, 7, false),
    (b"00000012:0000007", 12, 7, false),
];

#[test]
fn pairs_of_numbers(rt: HostRuntime) {
    let mut pair = SpelledPair::new();
    for (text, first, second, wanted) in &PAIRS {
        let found = pair.are_in(*text, *first, *second);
        assert_eq!(rt; found, *wanted, "{first} {second}");
    }
}
