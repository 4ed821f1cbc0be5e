//! The numbers of a transmission that are made by counting.

use crate::lines::{line_at, places};
use std::alloc::{AllocError, Global};

/// A number that is made by counting: its field, where it begins in its line, and how many digits it has.
#[derive(Clone, Copy, Debug, PartialEq, Eq)]
pub struct CountedNumber {
    /// The number of its field, from 1.
    pub field: u8,
    /// How many bytes of its line stand before it.
    pub start: usize,
    /// How many digits it has.
    pub width: usize,
}

/// Those of GRH.
const OF_HEADERS: [CountedNumber; 1] = [CountedNumber {
    field: 3,
    start: 6,
    width: 5,
}];

/// Those of GRT and TRL.
const OF_TRAILERS: [CountedNumber; 3] = [
    CountedNumber {
        field: 2,
        start: 3,
        width: 5,
    },
    CountedNumber {
        field: 3,
        start: 8,
        width: 8,
    },
    CountedNumber {
        field: 4,
        start: 16,
        width: 8,
    },
];

/// Those of a record of a transaction.
const OF_OTHERS: [CountedNumber; 2] = [
    CountedNumber {
        field: 2,
        start: 3,
        width: 8,
    },
    CountedNumber {
        field: 3,
        start: 11,
        width: 8,
    },
];

/// Those of a line, by its kind.
pub fn counted_in(line: &[u8]) -> &'static [CountedNumber] {
    match line.get(..3).unwrap_or(b"") {
        b"HDR" => &[],
        b"GRH" => &OF_HEADERS,
        b"GRT" | b"TRL" => &OF_TRAILERS,
        _ => &OF_OTHERS,
    }
}

/// Writes a number over the digits that stand in its place.
fn write_over(text: &mut [u8], start: usize, width: usize, number: u32) {
    let mut left = number;
    for back in 1..=width {
        let at = start.saturating_add(width).saturating_sub(back);
        if let Some(digit) = text.get_mut(at) {
            *digit = b'0'.saturating_add((left % 10) as u8);
        }
        left /= 10;
    }
}

/// What was counted so far.
#[derive(Clone, Copy, Debug)]
struct Counts {
    groups: u32,
    /// Of the group, and of all groups.
    transactions: (u32, u32),
    /// Of the transaction after its header, of the group and of all.
    records: (u32, u32, u32),
}

impl Counts {
    /// With one record more, of this kind.
    fn with(self, kind: &[u8]) -> Counts {
        let all = self.records.2.saturating_add(1);
        match kind {
            b"GRH" => Counts {
                groups: self.groups.saturating_add(1),
                transactions: (0, self.transactions.1),
                records: (0, 1, all),
            },
            b"AGR" | b"NWR" | b"REV" | b"ACK" => Counts {
                groups: self.groups,
                transactions: (
                    self.transactions.0.saturating_add(1),
                    self.transactions.1.saturating_add(1),
                ),
                records: (0, self.records.1.saturating_add(1), all),
            },
            _ => Counts {
                groups: self.groups,
                transactions: self.transactions,
                records: (
                    self.records.0.saturating_add(1),
                    self.records.1.saturating_add(1),
                    all,
                ),
            },
        }
    }

    /// The numbers of a record of this kind, with which these are the counts.
    fn numbers(self, kind: &[u8]) -> [u32; 3] {
        match kind {
            b"GRH" => [self.groups, 0, 0],
            b"GRT" => [self.groups, self.transactions.0, self.records.1],
            b"TRL" => [self.groups, self.transactions.1, self.records.2],
            _ => [self.transactions.0.saturating_sub(1), self.records.0, 0],
        }
    }
}

/// The text with each number written anew.
pub fn renumbered(alloc: Global, text: &[u8]) -> Result<Vec<u8>, AllocError> {
    let mut changed = Vec::new(alloc);
    changed.extend_from_slice(text)?;
    let mut counts = Counts {
        groups: 0,
        transactions: (0, 0),
        records: (0, 0, 0),
    };
    for place in places(alloc, text)? {
        let line = line_at(text, place);
        let kind = line.get(..3).unwrap_or(b"");
        counts = counts.with(kind);
        for (number, digits) in counts.numbers(kind).iter().zip(counted_in(line)) {
            if digits.start.saturating_add(digits.width) <= line.len() {
                let start = place.start.saturating_add(digits.start);
                write_over(changed.as_mut_slice(), start, digits.width, *number);
            }
        }
    }
    Ok(changed)
}
