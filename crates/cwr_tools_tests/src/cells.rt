//! Tests of the cells of transactions that are handed out, on worked examples of this profile.

ghost use Rattle.std.specs.Prelude.{◌<◌, ◌≤◌};

use crate::checks::check_equal;
use crate::decoders::{LARGEST, decoder_within, feed, text_of};
use cwr_decode::{Answer, Outcome};
use cwr_fields::{Cell, CivilDate, DateCell, Kind, Number, TimeOfDay, TransactionStatus, trimmed};
use cwr_lines::RecordRef;
use cwr_values::{Item, Transaction};
use cwr_worked::texts::ONE_ACKNOWLEDGEMENT;
use std::process::Abort;

/// The transaction that a step hands out.
fn transaction_in(step: Answer) -> Option<Transaction> {
    match step.outcome {
        Outcome::Item(Item::Transaction(transaction)) => Some(transaction),
        _ => None,
    }
}

/// The transaction of the transmission of one acknowledgement, as a decoder hands it out after HDR and GRH.
fn read_transaction(rt: &(impl Abort + AllocGlobal)) -> Transaction {
    let text = text_of(rt, ONE_ACKNOWLEDGEMENT);
    let mut decoder = decoder_within(rt, LARGEST);
    let mut left = text.as_slice();
    for _ in 0..2 {
        let (used, _) = feed(&mut decoder, left);
        left = left.get(used..).unwrap_or(b"");
    }
    transaction_in(decoder.feed(left)).expect(rt, "no transaction")
}

/// Checks cells of a record, their trailing spaces left out.
fn check_cells(rt: &impl Abort, record: &RecordRef<'_>, cells: &[(u8, Option<&[u8]>)]) {
    for (j, wanted) in cells {
        check_equal(
            rt,
            (j, record.cell(*j).map(|cell| trimmed(cell))),
            (j, *wanted),
        );
    }
}

/// Checks a cell of a record that is read as a value of a type.
fn check_read<C: Cell + PartialEq + Drop>(
    rt: &impl Abort,
    record: &RecordRef<'_>,
    j: u8,
    wanted: Option<C>,
)
    requires least { 0 < C.WIDTH }
    requires most { C.WIDTH ≤ 10 }
{
    assert!(rt; record.read::<C>(j) == wanted);
}

/// Checks typed cells of the acknowledgement.
fn check_typed_cells(rt: &impl Abort, record: &RecordRef<'_>) {
    let day = CivilDate::new(2024, 1, 2);
    check_read(rt, record, 4, day);
    check_read(rt, record, 4, day.map(|day| DateCell::Day(day)));
    check_read(rt, record, 5, TimeOfDay::new(10, 15, 0));
    check_read(rt, record, 6, Number::<5>::new(1));
    check_read(rt, record, 7, Number::<8>::new(0));
    let accepted = TransactionStatus::RegistrationAccepted;
    check_read(rt, record, 13, Some(accepted));
    check_read::<Number<8>>(rt, record, 2, None);
}

#[rattlefmt::skip]
static CELLS: [(u8, Option<&[u8]>); 15] = [
    (0, None),
    (1, None),
    (2, None),
    (3, None),
    (4, Some(b"20240102")),
    (5, Some(b"101500")),
    (6, Some(b"00001")),
    (7, Some(b"00000000")),
    (8, Some(b"NWR")),
    (9, Some(b"BLUE RIVER")),
    (10, Some(b"W0001")),
    (11, Some(b"")),
    (12, Some(b"20240110")),
    (13, Some(b"AS")),
    (14, None),
];

/// Checks the record of an acknowledgement.
fn check_record(rt: &impl Abort, record: &RecordRef<'_>) {
    check_equal(rt, record.kind(), Kind::Ack);
    check_cells(rt, record, &CELLS);
    check_typed_cells(rt, record);
}

#[test]
fn the_cells_of_an_acknowledgement(rt: HostRuntime) {
    let transaction = read_transaction(&rt);
    check_equal(
        &rt,
        (transaction.len(), transaction.record(1).is_none()),
        (1, true),
    );
    check_record(&rt, &transaction.record(0).expect(&rt, "no record"));
}
