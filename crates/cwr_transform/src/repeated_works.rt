//! Works whose numbers stand in two transmissions.

use cwr_fields::Kind;
use cwr_findings::{cell, is_of};
use cwr_values::Transaction;
use std::alloc::Global;
use std::collections::BTreeMap;

/// NWR, REV: submitter work number.
const WORK_NUMBER: u8 = 6;

/// The number that its submitter gave a work.
pub(crate) type WorkNumber = [u8; 14];

/// A work whose number stands in a transmission before its own.
#[derive(Clone, Copy, Debug)]
pub(crate) struct RepeatedWork {
    pub(crate) number: WorkNumber,
    /// The number of the first transmission that has it, from 1.
    pub(crate) first: usize,
    /// That of its own.
    pub(crate) input: usize,
}

/// The numbers of the first works of transmissions, and the works that have one of these in another transmission.
#[derive(Drop)]
pub(crate) struct RepeatedWorks {
    /// The numbers of so many works are kept; none, where nobody asks for them.
    limit: u32,
    /// How many works there were, up to one more than that.
    works: u32,
    /// The transmission in which each number came first.
    kept: BTreeMap<WorkNumber, usize>,
    /// In the order in which they came.
    pub(crate) repeated: Vec<RepeatedWork>,
    /// Memory was refused.
    pub(crate) lacks_memory: bool,
}

/// The number of a transaction that is a work.
fn work_number(transaction: &Transaction) -> Option<WorkNumber> {
    let header = transaction.record(0)?;
    if !is_of(&header, Kind::Nwr) && !is_of(&header, Kind::Rev) {
        return None;
    }
    WorkNumber::try_from(cell(&header, WORK_NUMBER)).ok()
}

impl RepeatedWorks {
    /// Before the first work. The numbers of so many are to be kept.
    pub(crate) fn new(alloc: Global, limit: u32) -> RepeatedWorks {
        RepeatedWorks {
            limit,
            works: 0,
            kept: BTreeMap::new(alloc),
            repeated: Vec::new(alloc),
            lacks_memory: false,
        }
    }

    /// How many numbers are kept, where there were more works than that.
    pub(crate) fn passed_limit(&self) -> Option<u32> {
        (self.works > self.limit && self.limit > 0).then_some(self.limit)
    }

    /// Takes a transaction of the transmission of that number, from 1.
    pub(crate) fn take(&mut self, input: usize, transaction: &Transaction) {
        if self.limit == 0 {
            return;
        }
        if let Some(number) = work_number(transaction) {
            self.take_work(input, number);
        }
    }

    /// Takes a work of the transmission of that number, from 1.
    fn take_work(&mut self, input: usize, number: WorkNumber) {
        let known = self.kept.get(&number).copied();
        if let Some(first) = known {
            let work = RepeatedWork {
                number,
                first,
                input,
            };
            if first != input && self.repeated.push(work).is_err() {
                self.lacks_memory = true;
            }
        } else if self.works < self.limit && self.kept.insert(number, input).is_err() {
            self.lacks_memory = true;
        }
        if self.works <= self.limit {
            self.works = self.works.saturating_add(1);
        }
    }
}
