//! A transmission that is read and summed up.

ghost use Rattle.std.specs.Prelude.{◌≡◌, ◌<◌, ℕ, [], List};
ghost use Rattle.cwr_values.specs.declared.items.Item.{Item};
ghost use Rattle.cwr_tools.specs.Format.Reports.{ItemLines};
ghost use Rattle.cwr_summary.specs.Format.Summaries.{IsSummaryOf, lines_of_nothing};

use crate::summaries::Summary;
use cwr_devices::{Pen, Target};
use cwr_tools::{NothingKept, Report, Totals, Verdict};
use cwr_values::Item;
use std::alloc::{AllocError, Global};

/// Nothing is written of a transmission, but its items are summed up.
#[derive(Drop)]
pub struct SummedItems {
    /// The summary of the items so far.
    summary: Summary,
}

impl SummedItems {
    /// Before the first item.
    pub fn new() -> SummedItems
        ensures stands { ⟦<SummedItems as Report>⟧.stands result lines_of_nothing [] }
    {
        SummedItems {
            summary: Summary::new(),
        }
    }

    /// The summary of the items that were read.
    pub fn summary(&self) -> Summary
        ensures { (of : ItemLines) (given : List Item)
            → ⟦<SummedItems as Report>⟧.stands self.now of given → IsSummaryOf given result.numbers }
    {
        self.summary
    }
}

impl Report for SummedItems {
    ghost use Rattle.std.specs.Prelude.{◌≡◌};
    ghost use Rattle.cwr_summary.specs.Format.Summaries.{lines_of_nothing};
    ghost use Rattle.cwr_summary.specs.Steps.SummedUp.{SumsUp};

    type Works = NothingKept;

    ghost stands = { λ report of given. (of ≡ lines_of_nothing) × SumsUp given report.summary };

    fn works(&self) -> NothingKept {
        NothingKept
    }

    fn passes(&self) -> bool {
        false
    }

    fn first_lines<W: Target>(&self, _: &mut Pen<'_, W>) {}

    fn item_lines<W: Target>(
        &mut self,
        alloc: Global,
        _: &Totals,
        item: &Item,
        _: &mut Pen<'_, W>,
    ) -> Result<(), AllocError> {
        self.summary.add_item(alloc, item)
    }

    fn last_lines<W: Target>(&self, _: &Verdict, _: &mut Pen<'_, W>) {}
}
