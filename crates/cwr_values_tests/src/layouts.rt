//! Tests of kinds and layouts: that the calls answer as the written tables of CWR 2.1 have it.

use crate::checks::check_equal;
use cwr_fields::{CellType, Kind, Table, Word, field, fields, width};
use std::process::Abort;

/// Texts, and the kinds whose letters they are.
const LETTERS: &[(&[u8], Option<Kind>)] = &[
    (b"NWR", Some(Kind::Nwr)),
    (b"MSG", Some(Kind::Msg)),
    (b"OPT", Some(Kind::Opt)),
    (b"XRF", Some(Kind::Xrf)),
    (b"hdr", None),
    (b"HD", None),
    (b"HDRX", None),
];

#[test]
fn kinds_by_their_letters(rt: HostRuntime) {
    for (text, kind) in LETTERS {
        check_equal(&rt, Kind::of(text), *kind);
    }
}

/// How many bytes and how many fields a record of the kind has.
const WIDTHS: &[(Kind, usize, u8)] = &[
    (Kind::Hdr, 101, 9),
    (Kind::Ipa, 153, 15),
    (Kind::Nwr, 260, 28),
    (Kind::Swr, 180, 23),
    (Kind::Ewt, 364, 16),
    (Kind::Msg, 185, 9),
    (Kind::Xrf, 719, 4),
];

/// Checks the widths of a row.
fn check_width(rt: &impl Abort, row: &(Kind, usize, u8)) {
    let (kind, bytes, count) = *row;
    check_equal(
        rt,
        (kind, (width(kind), fields(kind))),
        (kind, (bytes, count)),
    );
}

#[test]
fn widths_and_counts(rt: HostRuntime) {
    for row in WIDTHS {
        check_width(&rt, row);
    }
}

/// A field: its kind and number, name, first byte, width, type, and whether its cells are computed.
type Known = (Kind, u8, &'static str, (usize, usize), (CellType, bool));

/// Checks a field.
fn check_field(rt: &impl Abort, row: &Known) {
    let (kind, j, name, place, ty) = *row;
    let found = field(kind, j).expect(rt, "no field");
    check_equal(rt, (found.start, found.width), place);
    check_equal(rt, (found.name, (found.ty, found.derived)), (name, ty));
}

#[rattlefmt::skip]
#[test]
fn fields_by_their_numbers(rt: HostRuntime) {
    check_field(&rt, &(Kind::Hdr, 5, "edi standard version", (59, 5), (CellType::Constant(Word::Edi), false)));
    check_field(&rt, &(Kind::Ack, 13, "transaction status", (157, 2), (CellType::Code(Table::Status), false)));
    check_field(&rt, &(Kind::Grt, 4, "record count", (16, 8), (CellType::Number, true)));
    assert!(rt; field(Kind::Ack, 0).is_none() && field(Kind::Ack, 14).is_none());
}
