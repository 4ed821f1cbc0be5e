//! Tests of what an explanation leaves where its writer fails.

use crate::devices::Bounded;
use cwr_devices::{Counted, InMemory};
use cwr_explain::explain;
use cwr_shape::Limits;
use cwr_tools::{ToolFault, Verdict};
use cwr_worked::texts::{ONE_ACKNOWLEDGEMENT, canonical};
use std::process::Abort;

/// What is written of a transmission after which a second one begins.
const EXPLAINED: &str = "GOOD groups 1 transactions 1 records 5\n  \
    after     3 bytes stand in a.cwr after the transmission; what stands there isn't judged\n  \
    note      it begins with HDR, as a second transmission does: put the last 3 bytes into a file of their own, check both, and put them together: cwr join -o OUT --new A B; but if it is the same one again, remove it, as each work would be sent twice\n";

/// What an explanation of such a text writes to a writer of so much room, and what it answers.
fn explained(
    rt: &(impl Abort + AllocGlobal),
    text: &[u8],
    room: usize,
) -> (Vec<u8>, Result<Verdict, ToolFault>) {
    let limits = Limits::new(99_999_999, 99_999, 999_999).expect(&rt, "largest limits");
    let mut reader = InMemory::new(text);
    let writer = Counted::new(Bounded {
        text: Vec::new(rt.alloc()),
        room,
    });
    let (writer, answer, _, _) = explain(rt.alloc(), limits, "a.cwr", &mut reader, writer);
    (writer.into_inner().text, answer)
}

/// A transmission, and the first bytes of a second one.
fn two(rt: &(impl Abort + AllocGlobal)) -> Vec<u8> {
    let mut text = canonical(rt.alloc(), ONE_ACKNOWLEDGEMENT).expect(&rt, "memory for a text");
    text.extend_from_slice(b"HDR")
        .expect(&rt, "memory for a text");
    text
}

#[test]
fn what_follows_is_explained(rt: HostRuntime) {
    let text = two(&rt);
    let (written, answer) = explained(&rt, text.as_slice(), 9999);
    let good = Verdict::Good {
        groups: 1,
        transactions: 1,
        records: 5,
    };
    assert!(rt; answer == Ok(good));
    assert!(rt; written.as_slice() == EXPLAINED.as_bytes());
}

#[test]
fn a_writer_that_fails_has_the_bytes_that_are_told(rt: HostRuntime) {
    let text = two(&rt);
    let wanted = EXPLAINED.as_bytes();
    for room in 0..wanted.len() {
        let (written, answer) = explained(&rt, text.as_slice(), room);
        let fault = ToolFault::Writer {
            written: room as u64,
        };
        assert!(rt; answer == Err(fault), "in room for {room}");
        assert!(rt; written.as_slice() == &wanted[..room], "in room for {room}");
    }
}
