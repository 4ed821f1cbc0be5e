//! The example of the library that README shows.

use crate::checks::check_equal;
use crate::decoders::text_of;
use cwr_decode::{ReadFault, Reading};
use cwr_devices::ReadAhead;
use cwr_fields::Kind;
use cwr_shape::Limits;
use cwr_values::Item;
use cwr_worked::texts::TWO_GROUPS;
use std::alloc::Global;
use std::io::Read;

/// How many works a transmission registers. It is read item by item: one transaction at most is in memory.
fn new_works<I: Read + Drop>(alloc: Global, input: I) -> Result<u32, ReadFault> {
    let limits = Limits::new(1_000_000, 1_000, 10_000).unwrap();
    let mut reader = ReadAhead::new(input);
    let mut reading = Reading::new(alloc, limits, &mut reader);
    let mut works: u32 = 0;
    for _ in 0..2_000_000 {
        match reading.next_item()? {
            Some(Item::Transaction(it)) if it.kind() == Kind::Nwr => {
                works = works.saturating_add(1);
            }
            Some(_) => {}
            None => break,
        }
    }
    Ok(works)
}

#[test]
fn new_works_are_counted(rt: HostRuntime) {
    let text = text_of(&rt, TWO_GROUPS);
    check_equal(&rt, new_works(rt.alloc(), text.as_slice()), Ok(1));
    let header = text.as_slice().get(..103).unwrap_or(b"");
    let truncated = Err(ReadFault::Truncated { records: 1 });
    check_equal(&rt, new_works(rt.alloc(), header), truncated);
}
