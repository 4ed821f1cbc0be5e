//! The lines of findings.

ghost use Rattle.std.specs.Prelude.{◌≡◌, ◌+◌, ◌≤◌, ◌∷◌, [], List, length, true, OnOk};
ghost use Rattle.std.specs.List.{flat_map};
ghost use Rattle.cwr_devices.specs.Steps.Pens.{Adds};
ghost use Rattle.cwr_findings.specs.Format.Findings.{findings};
ghost use Rattle.cwr_findings.specs.Format.ReportLines.{finding_line};
ghost use Rattle.cwr_tools.specs.Format.Reports.{ItemLines, has_findings, lines_of_explained, lines_of_findings, lines_up_to_fault};
ghost use Rattle.cwr_tools.specs.Format.Reports.{transaction_lines};
ghost use Rattle.cwr_tools.specs.Format.Watching.{AreFindingsIn, findings_with};
ghost use Rattle.cwr_tools.specs.Steps.Watching.{Sees};
ghost use Rattle.cwr_tools.specs.Steps.Reports.{AddsLines, lines_told};
ghost use Rattle.cwr_values.specs.declared.items.Item.{Item};

use crate::finding_counts::FindingCount;
use crate::reporting::{unrefused_line, verdict_line};
use crate::reports::Report;
use crate::totals::Totals;
use crate::verdicts::Verdict;
use cwr_decode::Keeper;
use cwr_devices::{Pen, Target};
use cwr_findings::{Finding, Sums, finding_line, findings};
use cwr_lines::RecordRef;
use cwr_notes::all_explained;
use cwr_values::{Item, Transaction};
use std::alloc::{AllocError, Global};

/// Adds the lines of findings in the transaction of that sequence in the group of that ID.
fn found_lines<W: Target>(group: u32, sequence: u32, found: &[Finding], pen: &mut Pen<'_, W>)
    ensures { Adds W.contents W.failures (flat_map (finding_line group sequence) found.now) pen.old
        pen.new }
{
    let mut i = 0;
    while let Some(finding) = found.get(i) {
        finding_line(group, sequence, finding, pen);
        i += 1;
    }
}

/// Adds the lines of these findings in the transaction of that sequence in the group of that ID. Where they are explained, lines follow
/// each, and the transaction's first record is on that line of the file. Where those stand apart an empty line follows.
fn told_lines<W: Target>(
    explained: bool,
    apart: bool,
    group: u32,
    sequence: u32,
    first: u64,
    transaction: &Transaction,
    found: &[Finding],
    pen: &mut Pen<'_, W>,
)
    requires few { explained ≡ true → first + length transaction.now ≤ 100000000 }
    requires found { found.now ≡ findings transaction.now }
    ensures { Adds W.contents W.failures
        (transaction_lines explained apart group sequence first transaction.now) pen.old pen.new }
{
    match explained {
        true => all_explained(apart, group, sequence, first, transaction, found, pen),
        false => found_lines(group, sequence, found, pen),
    }
}

/// Adds the lines of findings in the transaction of that sequence in the group of that ID, and notes that they are told. Where they are
/// explained, lines follow each, and the transaction's first record is on that line of the file. Where those stand apart an empty line
/// follows.
fn findings_in<W: Target>(
    explained: bool,
    apart: bool,
    alloc: Global,
    group: u32,
    sequence: u32,
    first: u64,
    transaction: &Transaction,
    told: &mut FindingCount,
    pen: &mut Pen<'_, W>,
) -> Result<(), AllocError>
    requires few { explained ≡ true → first + length transaction.now ≤ 100000000 }
    ensures adds { AddsLines W.contents W.failures (has_findings (Item.Transaction transaction.now))
        (transaction_lines explained apart group sequence first transaction.now) result pen.old
        pen.new }
    ensures seen { OnOk result
        (Sees told.old.worst told.new.worst (Item.Transaction transaction.now ∷ [])) }
    ensures counted { OnOk result
        (told.new.findings ≡ findings_with told.old.findings (Item.Transaction transaction.now ∷ [])) }
{
    let found = findings(alloc, transaction)?;
    told.add(found.as_slice());
    told_lines(
        explained,
        apart,
        group,
        sequence,
        first,
        transaction,
        found.as_slice(),
        pen,
    );
    Ok(())
}

/// Adds the lines of findings in the transaction of that sequence in the group of that ID, and counts them. Where they are explained,
/// lines follow each, and the transaction's first record is on that line of the file. Where those stand apart an empty line follows.
pub fn transaction_findings<W: Target>(
    explained: bool,
    apart: bool,
    alloc: Global,
    group: u32,
    sequence: u32,
    first: u64,
    transaction: &Transaction,
    count: &mut u64,
    pen: &mut Pen<'_, W>,
) -> Result<(), AllocError>
    requires few { explained ≡ true → first + length transaction.now ≤ 100000000 }
    ensures adds { AddsLines W.contents W.failures (has_findings (Item.Transaction transaction.now))
        (transaction_lines explained apart group sequence first transaction.now) result pen.old
        pen.new }
    ensures counted { OnOk result
        (count.new ≡ findings_with count.old (Item.Transaction transaction.now ∷ [])) }
{
    let mut told = FindingCount::new();
    findings_in(
        explained,
        apart,
        alloc,
        group,
        sequence,
        first,
        transaction,
        &mut told,
        pen,
    )?;
    *count = count.saturating_add(told.findings);
    Ok(())
}

/// The findings in each transaction, a line each, and the line of the verdict.
#[derive(Drop)]
pub struct FindingLines {
    /// With the rule under each finding, and the cells that it speaks of.
    explained: bool,
    /// Without the line of a refusal: who goes on after it tells it. Findings that are explained then stand apart.
    up_to_fault: bool,
    /// Those that were told.
    told: FindingCount,
}

impl FindingLines {
    /// None was told yet.
    fn beginning(explained: bool, up_to_fault: bool) -> FindingLines
        ensures { ⟦<FindingLines as Report>⟧.stands result (lines_told explained up_to_fault) [] }
    {
        FindingLines {
            explained,
            up_to_fault,
            told: FindingCount::new(),
        }
    }

    /// A line for each finding, and that of the verdict.
    pub fn new() -> FindingLines
        ensures stands { ⟦<FindingLines as Report>⟧.stands result lines_of_findings [] }
    {
        FindingLines::beginning(false, false)
    }

    /// The same, with lines under each finding: where its record stands, the rule in words, how much it rejects, and the cells that it
    /// speaks of. These lines begin with two spaces.
    pub fn explained() -> FindingLines
        ensures stands { ⟦<FindingLines as Report>⟧.stands result lines_of_explained [] }
    {
        FindingLines::beginning(true, false)
    }

    /// Either of these without the line of a refusal: who goes on after that tells it. An empty line stands after each finding that is
    /// explained.
    pub fn up_to_fault(explained: bool) -> FindingLines
        ensures stands { ⟦<FindingLines as Report>⟧.stands result (lines_up_to_fault explained) [] }
    {
        FindingLines::beginning(explained, true)
    }

    /// The findings that were told.
    pub fn told(&self) -> FindingCount
        ensures told { (of : ItemLines) (given : List Item)
            → ⟦<FindingLines as Report>⟧.stands self.now of given → AreFindingsIn result given }
    {
        self.told
    }
}

/// Keeps the sums of a work in place of its records, so that works without findings are passed over.
#[derive(Drop)]
pub struct FindingSums(Sums);

impl Keeper for FindingSums {
    ghost use Rattle.std.specs.Prelude.{◌≡◌, []};
    ghost use Rattle.cwr_findings.specs.Format.Findings.{findings};
    ghost use Rattle.cwr_findings.specs.Steps.Sums.{StandFor};

    ghost stands_for = { λ kept records. StandFor kept.0 records };

    ghost are_clean = { λ records. findings records ≡ [] };

    fn begin(&mut self, header: &RecordRef<'_>) -> bool {
        self.0.begin(header)
    }

    #[inline(always)]
    fn add<A>(&mut self, next: &RecordRef<'_>) -> bool {
        self.0.add::<A>(next)
    }

    fn is_clean(&self) -> bool {
        self.0.is_clean()
    }
}

impl Report for FindingLines {
    ghost use Rattle.std.specs.Prelude.{◌≡◌};
    ghost use Rattle.cwr_tools.specs.Steps.Reports.{lines_told};
    ghost use Rattle.cwr_tools.specs.Format.Watching.{findings_with};
    ghost use Rattle.cwr_tools.specs.Steps.Watching.{IsWorst};

    type Works = FindingSums;

    ghost stands = { λ report of given. (of ≡ lines_told report.explained report.up_to_fault) × IsWorst report.told.worst given
        × (report.told.findings ≡ findings_with 0 given) };

    fn works(&self) -> FindingSums {
        FindingSums(Sums::new())
    }

    fn passes(&self) -> bool {
        true
    }

    fn first_lines<W: Target>(&self, _: &mut Pen<'_, W>) {}

    fn item_lines<W: Target>(
        &mut self,
        alloc: Global,
        counts: &Totals,
        item: &Item,
        pen: &mut Pen<'_, W>,
    ) -> Result<(), AllocError> {
        match item {
            Item::Transaction(transaction) => findings_in(
                self.explained,
                self.up_to_fault,
                alloc,
                counts.groups,
                counts.in_group,
                u64::from(counts.records) + 1,
                transaction,
                &mut self.told,
                pen,
            ),
            Item::Opened(_) | Item::GroupOpened(_) | Item::GroupClosed(_) | Item::Ended => Ok(()),
        }
    }

    fn last_lines<W: Target>(&self, verdict: &Verdict, pen: &mut Pen<'_, W>) {
        match self.up_to_fault {
            true => unrefused_line(verdict, pen),
            false => verdict_line(verdict, pen),
        }
    }
}
