//! What a run that advises writes: the findings and the advice in each transaction, and the verdict.

ghost use Rattle.std.specs.Prelude.{◌≡◌, List, [], ◌++◌, true, None};
ghost use Rattle.cwr_devices.specs.Steps.Pens.{Adds};
ghost use Rattle.cwr_values.specs.declared.items.Item.{Item};
ghost use Rattle.cwr_tools.specs.Format.Reports.{ItemLines};
ghost use Rattle.cwr_tools.specs.Format.Texts.{verdict_line};
ghost use Rattle.cwr_tools.specs.Format.Watching.{findings_with};
ghost use Rattle.cwr_advise.specs.Format.AdviceLevels.{IsWorstTold};
ghost use Rattle.cwr_advise.specs.Format.AdviceLines.{advice_on, lines_advised, lines_of_advice, said_in};
ghost use Rattle.cwr_advise.specs.Steps.AdviceCounts.{counts_of, summary_by};
ghost use Rattle.cwr_advise.specs.Steps.AdvisedItems.{IsBefore, last_by};
ghost use Rattle.cwr_advise.specs.Steps.KeptWorks.{AreKeptOf};

use crate::before::Before;
use crate::item_advice::{Manner, item_lines};
use crate::kept_works::AdvisedSums;
use crate::repeats::Repeats;
use crate::told::AdviceCounts;
use crate::worst::Worst;
use cwr_advice::Said;
use cwr_devices::{Pen, Target};
use cwr_shape::Level;
use cwr_tools::{Report, Totals, Verdict, verdict_line};
use cwr_values::Item;
use std::alloc::{AllocError, Global};

/// The findings in each transaction, with what explains them, and after them the advice on it, and the line of the verdict.
///
/// All advice is told, or of each rule the first three pieces, and before the verdict how much of each rule isn't told. Advice changes
/// no verdict. `ToolFault::Memory` is answered where memory for a transaction, for its findings, for the advice on it or for its number
/// was refused. The advice on one transaction is held, and the numbers of works that are kept.
#[derive(Drop)]
pub struct AdviceLines {
    /// How findings and advice are told.
    manner: Manner,
    /// Without the line of a refusal: who goes on after it tells it, and how much of the advice isn't told.
    up_to_fault: bool,
    /// What the items so far leave behind.
    before: Before,
    /// The works so far.
    repeats: Repeats,
    /// The findings that were told. It stays at `u64::MAX`.
    findings: u64,
    /// How much advice came from each rule.
    told: AdviceCounts,
    /// The worst level of all findings and all advice.
    worst: Worst,
}

impl AdviceLines {
    /// Before the first item. The numbers of so many works are to be kept.
    fn beginning(alloc: Global, manner: Manner, up_to_fault: bool, repeated: u32) -> AdviceLines
        requires { up_to_fault ≡ true → repeated ≡ 0 }
        ensures manner { result.manner ≡ manner }
        ensures up_to_fault { result.up_to_fault ≡ up_to_fault }
        ensures repeated { result.repeats.limit ≡ repeated }
        ensures before { IsBefore result.before [] }
        ensures works { AreKeptOf result.repeats [] }
        ensures none { result.findings ≡ 0 }
        ensures uncounted { result.told ≡ counts_of (advice_on repeated []) }
        ensures untold { result.worst.level ≡ None }
    {
        AdviceLines {
            manner,
            up_to_fault,
            before: Before::nothing(),
            repeats: Repeats::new(alloc, repeated),
            findings: 0,
            told: AdviceCounts::nothing(),
            worst: Worst::nothing(),
        }
    }

    /// All advice, or of each rule the first three pieces.
    ///
    /// The numbers of the first `repeated` works are kept, and each work with such a number is advised on. The first work beyond is told
    /// too: from there on works are compared with those that are kept alone.
    pub fn new(alloc: Global, all: bool, repeated: u32) -> AdviceLines
        ensures stands { ⟦<AdviceLines as Report>⟧.stands result (lines_of_advice all repeated) [] }
    {
        let manner = Manner {
            explained: true,
            apart: false,
            all,
        };
        AdviceLines::beginning(alloc, manner, false, repeated)
    }

    /// The same in that manner, and nothing of a refusal: who goes on after that tells it, and how much of the advice isn't told. No
    /// numbers of works are kept.
    pub fn up_to_fault(alloc: Global, manner: Manner) -> AdviceLines
        ensures stands { ⟦<AdviceLines as Report>⟧.stands result (lines_advised manner true 0) [] }
    {
        AdviceLines::beginning(alloc, manner, true, 0)
    }

    /// The worst level of all findings and all advice, told or not.
    pub fn worst(&self) -> Option<Level>
        ensures worst { (of : ItemLines) (given : List Item)
            → ⟦<AdviceLines as Report>⟧.stands self.now of given → IsWorstTold of result given }
    {
        self.worst.level
    }

    /// How many findings were told. It stays at `u64::MAX`.
    pub fn findings(&self) -> u64
        ensures findings { (of : ItemLines) (given : List Item)
            → ⟦<AdviceLines as Report>⟧.stands self.now of given → result ≡ findings_with 0 given }
    {
        self.findings
    }

    /// What the header says.
    pub fn said(&self) -> Said
        ensures said { (of : ItemLines) (given : List Item)
            → ⟦<AdviceLines as Report>⟧.stands self.now of given → result ≡ said_in given }
    {
        self.before.said()
    }

    /// How much advice came from each rule, up to a fault.
    pub fn counts(&self) -> AdviceCounts
        ensures counts { (manner : _) (given : List Item)
            → ⟦<AdviceLines as Report>⟧.stands self.now (lines_advised manner true 0) given
            → result ≡ counts_of (advice_on 0 given) }
    {
        self.told.copy()
    }
}

impl Report for AdviceLines {
    ghost use Rattle.std.specs.Prelude.{◌≡◌, true, Option};
    ghost use Rattle.cwr_shape.specs.declared.reasons.Level.{Level};
    ghost use Rattle.cwr_advise.specs.Format.AdviceLevels.{any_reaches};
    ghost use Rattle.cwr_advise.specs.Format.AdviceLines.{advice_on, lines_advised};
    ghost use Rattle.cwr_advise.specs.Format.RepeatedWorks.{works_in};
    ghost use Rattle.cwr_advise.specs.Steps.AdviceCounts.{counts_of};
    ghost use Rattle.cwr_advise.specs.Steps.AdvisedItems.{IsBefore};
    ghost use Rattle.cwr_advise.specs.Steps.KeptWorks.{AreKeptOf};
    ghost use Rattle.cwr_tools.specs.Format.Watching.{findings_with, is_reached};

    type Works = AdvisedSums;

    ghost stands = { λ report of given. (of ≡ lines_advised report.manner report.up_to_fault report.repeats.limit) × IsBefore report.before given × AreKeptOf report.repeats (works_in given) × (report.findings ≡ findings_with 0 given) × (report.told ≡ counts_of (advice_on report.repeats.limit given)) × ((asked : Option Level) → is_reached asked report.worst.level ≡ any_reaches report.repeats.limit asked given) × (report.up_to_fault ≡ true → report.repeats.limit ≡ 0) };

    fn works(&self) -> AdvisedSums {
        AdvisedSums::new()
    }

    // Who is passed over isn't among the works.
    fn passes(&self) -> bool {
        self.repeats.limit() == 0
    }

    fn first_lines<W: Target>(&self, _: &mut Pen<'_, W>) {}

    fn item_lines<W: Target>(
        &mut self,
        alloc: Global,
        counts: &Totals,
        item: &Item,
        pen: &mut Pen<'_, W>,
    ) -> Result<(), AllocError> {
        let limit = self.repeats.limit();
        let repeated = self.repeats.take_item(counts, item)?;
        item_lines(
            self.manner,
            alloc,
            self.before.said(),
            limit,
            counts,
            item,
            &repeated,
            &mut self.findings,
            &mut self.told,
            &mut self.worst,
            pen,
        )?;
        self.before = self.before.with(item);
        Ok(())
    }

    fn last_lines<W: Target>(&self, verdict: &Verdict, pen: &mut Pen<'_, W>) {
        last_lines(self.up_to_fault, self.manner.all, &self.told, verdict, pen);
    }
}

/// Adds how much of the advice isn't told, and the line of the verdict.
fn summed<W: Target>(all: bool, told: &AdviceCounts, verdict: &Verdict, pen: &mut Pen<'_, W>)
    ensures { Adds W.contents W.failures (summary_by all told.now ++ verdict_line verdict.now) pen.old
        pen.new }
{
    told.summary(all, pen);
    verdict_line(verdict, pen);
}

/// Adds the same, or, up to a fault, nothing of a refusal.
fn last_lines<W: Target>(
    up_to_fault: bool,
    all: bool,
    told: &AdviceCounts,
    verdict: &Verdict,
    pen: &mut Pen<'_, W>,
)
    ensures { Adds W.contents W.failures (last_by up_to_fault all told.now verdict.now) pen.old
        pen.new }
{
    match (up_to_fault, verdict) {
        (true, Verdict::Refused(_)) => {}
        _ => summed(all, told, verdict, pen),
    }
}
