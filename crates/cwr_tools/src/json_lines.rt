//! The data of a transmission, as lines of JSON.

ghost use Rattle.std.specs.Prelude.{◌≡◌, []};
ghost use Rattle.cwr_tools.specs.Format.Reports.{lines_of_data};
ghost use Rattle.cwr_tools.specs.Steps.Reports.{notes_at};

use crate::reports::{NothingKept, Report};
use crate::totals::Totals;
use crate::verdicts::Verdict;
use cwr_devices::{Pen, Target};
use cwr_json::{Encoding, Notes, item_line};
use cwr_values::Item;
use std::alloc::{AllocError, Global};

/// The notes of an item that comes after items with these numbers.
fn notes_at(noted: bool, counts: &Totals, item: &Item) -> Option<Notes>
    ensures { result ≡ notes_at noted counts.now item.now }
{
    if !noted {
        return None;
    }
    let opened: u64 = match item {
        Item::GroupOpened(_) => 1,
        Item::Opened(_) | Item::Transaction(_) | Item::GroupClosed(_) | Item::Ended => 0,
    };
    Some(Notes {
        group: u64::from(counts.groups) + opened,
        transaction: u64::from(counts.in_group),
        line: u64::from(counts.records) + 1,
    })
}

/// The data of each item, as a line of JSON, and nothing for the verdict.
#[derive(Drop)]
pub struct DataLines {
    /// How its cells are shown.
    encoding: Encoding,
    /// With its notes.
    noted: bool,
}

impl DataLines {
    /// Cells are shown by the encoding, and each item has its notes, if they are asked for.
    pub fn new(encoding: Encoding, noted: bool) -> DataLines
        ensures stands { ⟦<DataLines as Report>⟧.stands result (lines_of_data encoding noted) [] }
    {
        DataLines { encoding, noted }
    }
}

impl Report for DataLines {
    ghost use Rattle.std.specs.Prelude.{◌≡◌};
    ghost use Rattle.cwr_tools.specs.Format.Reports.{lines_of_data};

    type Works = NothingKept;

    ghost stands = { λ report of given. of ≡ lines_of_data report.encoding report.noted };

    fn works(&self) -> NothingKept {
        NothingKept
    }

    fn passes(&self) -> bool {
        false
    }

    fn first_lines<W: Target>(&self, _: &mut Pen<'_, W>) {}

    fn item_lines<W: Target>(
        &mut self,
        _: Global,
        counts: &Totals,
        item: &Item,
        pen: &mut Pen<'_, W>,
    ) -> Result<(), AllocError> {
        let notes = notes_at(self.noted, counts, item);
        item_line(self.encoding, notes, item, pen);
        Ok(())
    }

    fn last_lines<W: Target>(&self, _: &Verdict, _: &mut Pen<'_, W>) {}
}
