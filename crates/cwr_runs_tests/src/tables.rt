//! Tests of what is written and answered.

use crate::devices::{Bounded, FailsAfter};
use cwr_devices::{Counted, ReadAhead};
use cwr_fields::Kind;
use cwr_json::Encoding;
use cwr_shape::Limits;
use cwr_tables::{Table, TableRows};
use cwr_tools::{ToolFault, Verdict, write_report};
use cwr_worked::texts::{ONE_ACKNOWLEDGEMENT, TWO_GROUPS, canonical};
use std::process::Abort;

/// What is written of the first lines, so many of them at most, to a writer of so much room, and what is answered, where the reader fails
/// after so many reads.
fn tabled(
    rt: &(impl Abort + AllocGlobal),
    table: Table,
    lines: &[&[u8]],
    most: usize,
    reads: usize,
    room: usize,
) -> (Vec<u8>, Result<Verdict, ToolFault>) {
    let limits = Limits::new(99_999_999, 99_999, 999_999).expect(&rt, "largest limits");
    let first = lines.get(..most).unwrap_or(lines);
    let text = canonical(rt.alloc(), first).expect(&rt, "memory for a text");
    let mut reader = ReadAhead::new(FailsAfter {
        left: text.as_slice(),
        reads,
    });
    let writer = Counted::new(Bounded {
        text: Vec::new(rt.alloc()),
        room,
    });
    let mut rows = TableRows::new(Encoding::Latin1, table);
    let (writer, answer) = write_report(&mut rows, rt.alloc(), limits, &mut reader, writer);
    (writer.into_inner().text, answer)
}

/// Tables of transmissions.
const TABLES: &[(&[&[u8]], Table, &[u8])] = &[
    (
        ONE_ACKNOWLEDGEMENT,
        Table::Records(Kind::Grt),
        b"group,transaction,record,currency,total_monetary_value\r\n1,,,,\r\n",
    ),
    (
        ONE_ACKNOWLEDGEMENT,
        Table::Records(Kind::Trl),
        b"group,transaction,record\r\n,,\r\n",
    ),
    (
        ONE_ACKNOWLEDGEMENT,
        Table::Records(Kind::Ack),
        b"group,transaction,record,creation_date,creation_time,original_group_id,original_transaction_sequence,original_transaction_type,creation_title,submitter_creation_number,recipient_creation_number,processing_date,transaction_status,_work,_title\r\n1,0,0,20240102,101500,00001,00000000,NWR,BLUE RIVER,W0001,,20240110,AS,W0001,BLUE RIVER\r\n",
    ),
    (
        ONE_ACKNOWLEDGEMENT,
        Table::Works,
        b"group,transaction,record_type,submitter_work_number,title,iswc,writers,publishers,writers_pr_share,writers_mr_share,writers_sr_share,publishers_pr_share,publishers_mr_share,publishers_sr_share\r\n",
    ),
    (
        TWO_GROUPS,
        Table::Works,
        b"group,transaction,record_type,submitter_work_number,title,iswc,writers,publishers,writers_pr_share,writers_mr_share,writers_sr_share,publishers_pr_share,publishers_mr_share,publishers_sr_share\r\n1,0,NWR,W0001,BLUE RIVER,,SMITH ANNA,,,,,,,\r\n2,0,REV,W0002,RED HILL,,SMITH ANNA,,,,,,,\r\n2,1,REV,W0003,GREEN SEA,,SMITH ANNA,,,,,,,\r\n",
    ),
];

#[test]
fn tables_are_written(rt: HostRuntime) {
    for (row, (lines, table, wanted)) in TABLES.iter().enumerate() {
        let (written, answer) = tabled(&rt, *table, *lines, 99, usize::MAX, 9999);
        assert!(rt; matches!(answer, Ok(Verdict::Good { .. })), "row {row}");
        assert!(rt; written.as_slice() == *wanted, "row {row}");
    }
}

#[test]
fn faults_of_devices_are_answered(rt: HostRuntime) {
    for room in [0, 10, 60] {
        let (written, answer) = tabled(
            &rt,
            Table::Records(Kind::Grt),
            ONE_ACKNOWLEDGEMENT,
            99,
            usize::MAX,
            room,
        );
        assert!(rt;
            matches!(answer, Err(ToolFault::Writer { written: count }) if count == room as u64),
            "room {room}"
        );
        assert!(rt; written.len() == room, "room {room}");
    }
    let (written, answer) = tabled(
        &rt,
        Table::Records(Kind::Grt),
        ONE_ACKNOWLEDGEMENT,
        99,
        1,
        9999,
    );
    assert!(rt; matches!(answer, Err(ToolFault::Reader)));
    assert!(rt;
        written.as_slice()
            == b"group,transaction,record,currency,total_monetary_value\r\n".as_slice()
    );
}

/// Lines that are refused, with the rows before.
#[test]
fn rows_before_a_refusal_are_written(rt: HostRuntime) {
    let (written, answer) = tabled(
        &rt,
        Table::Records(Kind::Swr),
        TWO_GROUPS,
        5,
        usize::MAX,
        9999,
    );
    assert!(rt; matches!(answer, Ok(Verdict::Truncated { records: 5 })));
    assert!(rt;
        written.as_slice().ends_with(
            b"\r\n1,0,1,W1,SMITH,ANNA,,CA,,,,,,,,,,,,,,,,W0001,BLUE RIVER\r\n"
        )
    );
}
