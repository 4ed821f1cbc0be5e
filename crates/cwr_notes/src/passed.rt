//! What the records before one leave behind, of which a finding at it may speak.

ghost use Rattle.std.specs.Prelude.{◌≡◌, ◌+◌, ◌<◌, ◌≤◌, List, Some, length, slice_get};
ghost use Rattle.cwr_lines.specs.Format.Records.{RecordValue};
ghost use Rattle.cwr_notes.specs.Steps.OtherRecords.{HasPassed};

use crate::other_records::OtherRecords;
use cwr_fields::Kind;
use cwr_lines::RecordRef;
use cwr_values::Transaction;

/// What the first records of a transaction leave behind.
#[derive(Drop)]
pub(crate) struct Passed {
    /// How many records they are.
    pub(crate) at: usize,
    /// The places of the SPU records.
    pub(crate) publishers: OtherRecords,
    /// That of the last of them.
    pub(crate) publisher: Option<usize>,
    /// That of the last SWR.
    pub(crate) writer: Option<usize>,
    /// That of the header of a work.
    pub(crate) header: Option<usize>,
}

impl Passed {
    /// Before the first record.
    pub(crate) fn none() -> Passed
        ensures passed { (t : List RecordValue) → HasPassed t result }
        ensures at { result.at ≡ 0 }
    {
        Passed {
            at: 0,
            publishers: OtherRecords::none(),
            publisher: None,
            writer: None,
            header: None,
        }
    }

    /// Passes the record that stands after those passed.
    fn pass(&mut self, shown: &RecordRef<'_>)
        requires counted { self.old.publishers.count ≤ self.old.at }
        requires few { self.old.at < 100000000 }
        ensures at { self.new.at ≡ self.old.at + 1 }
        ensures passed { (t : List RecordValue) → slice_get t self.old.at ≡ Some shown.now
            → HasPassed t self.old → HasPassed t self.new }
    {
        let at = self.at;
        self.at = at + 1;
        match shown.kind() {
            Kind::Spu => {
                self.publishers.add(at);
                self.publisher = Some(at);
            }
            Kind::Swr => self.writer = Some(at),
            Kind::Nwr | Kind::Rev => self.header = Some(at),
            _ => {}
        }
    }

    /// Begins again, where records from the place on were passed.
    fn begin_before(&mut self, place: usize)
        ensures at { self.new.at ≤ place }
        ensures passed { (t : List RecordValue) → HasPassed t self.old → HasPassed t self.new }
    {
        if place < self.at {
            *self = Passed::none();
        }
    }

    /// Has just the records before the place passed.
    pub(crate) fn move_to(&mut self, transaction: &Transaction, place: usize)
        requires few { length transaction.now ≤ 100000000 }
        requires within { place < length transaction.now }
        requires passed { HasPassed transaction.now self.old }
        ensures at { self.new.at ≡ place }
        ensures passed { HasPassed transaction.now self.new }
    {
        self.begin_before(place);
        for at in self.at..place {
            let Some(shown) = transaction.record(at) else {
                return;
            };
            self.pass(&shown);
        }
    }
}
