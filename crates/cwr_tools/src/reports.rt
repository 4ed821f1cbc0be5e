//! What a run over a text writes: a report.

ghost use Rattle.std.specs.Prelude.{◌+◌, ◌≤◌, ◌∷◌, ◌++◌, [], List, length, IsTrue, OnOk};
ghost use Rattle.cwr_devices.specs.Steps.Pens.{Adds};
ghost use Rattle.cwr_judge.specs.Format.Items.{item_records};
ghost use Rattle.cwr_lines.specs.Format.Records.{RecordValue};
ghost use Rattle.cwr_values.specs.declared.items.Item.{Item};
ghost use Rattle.cwr_tools.specs.Format.Reports.{ItemLines};
ghost use Rattle.cwr_tools.specs.Steps.Counts.{HasRoomToCount, IsCount};
ghost use Rattle.cwr_tools.specs.Steps.Reports.{AddsNext, PassesOver, StandsCounted};

use crate::totals::Totals;
use crate::verdicts::Verdict;
use cwr_decode::Keeper;
use cwr_devices::{Pen, Target};
use cwr_lines::RecordRef;
use cwr_values::Item;
use std::alloc::{AllocError, Global};

/// What a run writes of a transmission: the lines of its items, one item after another, and what stands for the verdict.
pub trait Report {
    /// What is kept of a transaction of which, if it is clean, nothing is told.
    type Works: Keeper + Drop;

    // It writes these lines, and is as these items leave it.
    ghost stands: { Self → ItemLines → List Item → Type 0 };

    /// With nothing kept yet.
    fn works(&self) -> Self::Works;

    /// Whether transactions that are clean may be passed over.
    fn passes(&self) -> bool
        ensures { IsTrue result → (of : ItemLines)
            → PassesOver Self.Works.are_clean of (stands self.now of) };

    /// Adds what stands before the items.
    fn first_lines<W: Target>(&self, pen: &mut Pen<'_, W>)
        ensures { (of : ItemLines) → stands self.now of []
            → Adds W.contents W.failures (of.lines []) pen.old pen.new };

    /// Adds the lines of an item that comes after items with these numbers. Where memory for them is refused, none is added.
    fn item_lines<W: Target>(
        &mut self,
        alloc: Global,
        counts: &Totals,
        item: &Item,
        pen: &mut Pen<'_, W>,
    ) -> Result<(), AllocError>
        requires room { HasRoomToCount counts.now }
        requires few { counts.now.records + length (item_records item.now) ≤ 99999999 }
        requires stands { StandsCounted (stands self.old) counts.now }
        ensures adds { (of : ItemLines) (given : List Item) → IsCount counts.now given
            → stands self.old of given
            → AddsNext W.contents W.failures of given item.now result pen.old pen.new }
        ensures stands { (of : ItemLines) (given : List Item) → IsCount counts.now given
            → stands self.old of given
            → OnOk result (stands self.new of (given ++ item.now ∷ [])) };

    /// Adds what stands for the verdict.
    fn last_lines<W: Target>(&self, verdict: &Verdict, pen: &mut Pen<'_, W>)
        ensures { (of : ItemLines) (given : List Item) → stands self.now of given
            → Adds W.contents W.failures (of.last given verdict.now) pen.old pen.new };
}

/// Keeps nothing of any transaction: none is passed over.
#[derive(Drop)]
pub struct NothingKept;

impl Keeper for NothingKept {
    ghost use Rattle.std.specs.Prelude.{List};
    ghost use Rattle.cwr_lines.specs.Format.Records.{RecordValue};

    ghost stands_for = { λ kept records. Unit {0} };

    ghost are_clean = { λ records. ⊥ };

    fn begin(&mut self, _: &RecordRef<'_>) -> bool {
        false
    }

    fn add<A>(&mut self, _: &RecordRef<'_>) -> bool {
        false
    }

    fn is_clean(&self) -> bool {
        false
    }
}
