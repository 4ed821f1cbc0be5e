//! The lines of records, while their findings are counted.

ghost use Rattle.std.specs.Prelude.{◌≡◌, ◌++◌, ◌∷◌, [], List, true, OnErr, OnOk};
ghost use Rattle.cwr_values.specs.declared.items.Item.{Item};
ghost use Rattle.cwr_tools.specs.Format.Reports.{ItemLines, has_findings, lines_of_counted};
ghost use Rattle.cwr_tools.specs.Format.Watching.{AreFindingsIn};

use crate::finding_counts::FindingCount;
use crate::reporting::verdict_line;
use crate::reports::{NothingKept, Report};
use crate::shown_records::item_lines;
use crate::totals::Totals;
use crate::verdicts::Verdict;
use cwr_devices::{Pen, Target};
use cwr_findings::findings;
use cwr_values::Item;
use std::alloc::{AllocError, Global};

/// Adds the findings in an item to those that were counted.
fn count_findings(alloc: Global, item: &Item, count: &mut FindingCount) -> Result<(), AllocError>
    ensures more { (given : List Item) → AreFindingsIn count.old given
        → OnOk result (AreFindingsIn count.new (given ++ item.now ∷ [])) }
    ensures memory { OnErr result (has_findings item.now ≡ true) }
{
    let Item::Transaction(transaction) = item else {
        return Ok(());
    };
    let found = findings(alloc, transaction)?;
    count.add(found.as_slice());
    Ok(())
}

/// Each record with its cells, and the line of the verdict. The findings are counted, none of which is written.
#[derive(Drop)]
pub struct CountedRecords {
    /// The findings in the items so far.
    found: FindingCount,
}

impl CountedRecords {
    /// Before the first item.
    pub fn new() -> CountedRecords
        ensures stands { ⟦<CountedRecords as Report>⟧.stands result lines_of_counted [] }
    {
        CountedRecords {
            found: FindingCount::new(),
        }
    }

    /// The findings that were counted.
    pub fn found(&self) -> FindingCount
        ensures found { (of : ItemLines) (given : List Item)
            → ⟦<CountedRecords as Report>⟧.stands self.now of given → AreFindingsIn result given }
    {
        self.found
    }
}

impl Report for CountedRecords {
    ghost use Rattle.std.specs.Prelude.{◌≡◌};
    ghost use Rattle.cwr_tools.specs.Format.Reports.{lines_of_counted};
    ghost use Rattle.cwr_tools.specs.Format.Watching.{AreFindingsIn};

    type Works = NothingKept;

    ghost stands = { λ report of given. (of ≡ lines_of_counted) × AreFindingsIn report.found given };

    fn works(&self) -> NothingKept {
        NothingKept
    }

    fn passes(&self) -> bool {
        false
    }

    fn first_lines<W: Target>(&self, _: &mut Pen<'_, W>) {}

    fn item_lines<W: Target>(
        &mut self,
        alloc: Global,
        counts: &Totals,
        item: &Item,
        pen: &mut Pen<'_, W>,
    ) -> Result<(), AllocError> {
        count_findings(alloc, item, &mut self.found)?;
        item_lines(u64::from(counts.records) + 1, item, pen);
        Ok(())
    }

    fn last_lines<W: Target>(&self, verdict: &Verdict, pen: &mut Pen<'_, W>) {
        verdict_line(verdict, pen);
    }
}
