//! The lines of advice on items.

ghost use Rattle.std.specs.Prelude.{◌≡◌, ◌+◌, ◌≤◌, ◌++◌, ◌||◌, length, OnOk, Option};
ghost use Rattle.std.specs.List.{flat_map};
ghost use Rattle.cwr_shape.specs.declared.reasons.Level.{Level};
ghost use Rattle.cwr_devices.specs.Steps.Pens.{Adds};
ghost use Rattle.cwr_judge.specs.Format.Items.{item_records};
ghost use Rattle.cwr_findings.specs.Format.Findings.{findings};
ghost use Rattle.cwr_notes.specs.Format.WorkNames.{work_of};
ghost use Rattle.cwr_tools.specs.Format.Reports.{has_findings, transaction_lines};
ghost use Rattle.cwr_tools.specs.Format.Watching.{has_from, is_reached};
ghost use Rattle.cwr_tools.specs.Steps.Reports.{AddsLines};
ghost use Rattle.cwr_advice.specs.Format.Rules.{advice_of};
ghost use Rattle.cwr_advise.specs.Format.AdviceLevels.{own_reaches};
ghost use Rattle.cwr_advise.specs.Format.AdviceLines.{has_advice, has_advised, own_advice};
ghost use Rattle.cwr_advise.specs.Format.AdviceTexts.{noted_advice};
ghost use Rattle.cwr_advise.specs.Steps.AdviceCounts.{counts_after, counts_with, lines_by, told_by};
ghost use Rattle.cwr_advise.specs.Steps.AdvisedItems.{AddsAdvised, advised_after, advised_at, told_with};
ghost use Rattle.cwr_advise.specs.Steps.KeptWorks.{counts_with_repeated, reaches_at, repeated_at, shown_repeated};

use crate::advice_texts::{lines_at_record, repeated_text};
use crate::repeats::{Place, Repeated, work_header};
use crate::told::AdviceCounts;
use crate::worst::Worst;
use cwr_advice::{Advice, Said, advice};
use cwr_devices::{Pen, Target};
use cwr_findings::findings;
use cwr_notes::WorkLine;
use cwr_tools::{Totals, transaction_findings};
use cwr_values::{Item, Transaction};
use std::alloc::{AllocError, Global};

/// How findings and advice are told.
#[derive(Clone, Copy, Debug)]
pub struct Manner {
    /// With what explains each finding.
    pub explained: bool,
    /// With an empty line after each piece of advice, and after each finding that is explained.
    pub apart: bool,
    /// All advice, where else of each rule no more than the first three pieces are told.
    pub all: bool,
}

/// Adds the lines of advice in the transaction of that sequence in the group of that ID, whose first record is on that line of the
/// file. The line on its work is that. Where advice stands apart an empty line follows.
fn noted_advice<W: Target>(
    apart: bool,
    group: u32,
    sequence: u32,
    first: u64,
    work: &WorkLine,
    transaction: &Transaction,
    advice: &Advice,
    pen: &mut Pen<'_, W>,
)
    requires few { first + length transaction.now ≤ 100000000 }
    requires work { work.now ≡ work_of transaction.now }
    ensures { Adds W.contents W.failures
        (noted_advice apart group sequence first transaction.now advice.now) pen.old pen.new }
{
    let Some(shown) = transaction.record(advice.rec) else {
        return;
    };
    lines_at_record(
        apart,
        group,
        sequence,
        first + advice.rec as u64,
        work,
        advice,
        &shown,
        pen,
    );
}

/// Counts a piece of advice in the transaction, and adds its lines, if it is told after so many. The line on the transaction's work is
/// that.
fn counted_lines<W: Target>(
    manner: Manner,
    group: u32,
    sequence: u32,
    first: u64,
    work: &WorkLine,
    transaction: &Transaction,
    advice: &Advice,
    told: &mut AdviceCounts,
    pen: &mut Pen<'_, W>,
)
    requires few { first + length transaction.now ≤ 100000000 }
    requires work { work.now ≡ work_of transaction.now }
    ensures adds { Adds W.contents W.failures
        (lines_by (noted_advice manner.apart group sequence first transaction.now) manner.all
        (told.old, advice.now)) pen.old pen.new }
    ensures told { told.new ≡ counts_with told.old advice.now.rule }
{
    if !told.take(manner.all, advice.rule) {
        return;
    }
    noted_advice(
        manner.apart,
        group,
        sequence,
        first,
        work,
        transaction,
        advice,
        pen,
    );
}

/// Adds the lines of the advice in the transaction that is told after so many pieces of each rule, and counts it.
fn told_lines<W: Target>(
    manner: Manner,
    group: u32,
    sequence: u32,
    first: u64,
    transaction: &Transaction,
    found: &[Advice],
    told: &mut AdviceCounts,
    pen: &mut Pen<'_, W>,
)
    requires { first + length transaction.now ≤ 100000000 }
    ensures adds { Adds W.contents W.failures
        (flat_map (noted_advice manner.apart group sequence first transaction.now)
        (told_by manner.all told.old found.now)) pen.old pen.new }
    ensures told { told.new ≡ counts_after told.old found.now }
{
    let work = WorkLine::of(transaction);
    let mut i = 0;
    while let Some(advice) = found.get(i) {
        counted_lines(
            manner,
            group,
            sequence,
            first,
            &work,
            transaction,
            advice,
            told,
            pen,
        );
        i += 1;
    }
}

/// Adds the lines of findings in the transaction of that sequence in the group of that ID, with what explains them where that is asked
/// for, counts them, and notes their levels. Its first record is on that line of the file.
fn counted_findings<W: Target>(
    explained: bool,
    apart: bool,
    alloc: Global,
    group: u32,
    sequence: u32,
    first: u64,
    transaction: &Transaction,
    count: &mut u64,
    worst: &mut Worst,
    pen: &mut Pen<'_, W>,
) -> Result<(), AllocError>
    requires few { first + length transaction.now ≤ 100000000 }
    ensures adds { AddsLines W.contents W.failures (has_findings (Item.Transaction transaction.now))
        (transaction_lines explained apart group sequence first transaction.now) result pen.old
        pen.new }
    ensures counted { OnOk result (count.new ≡ told_with count.old (Item.Transaction transaction.now)) }
    ensures seen { OnOk result ((asked : Option Level) → is_reached asked worst.new.level
        ≡ (is_reached asked worst.old.level || has_from asked (findings transaction.now))) }
{
    let found = findings(alloc, transaction)?;
    worst.see_findings(found.as_slice());
    transaction_findings(
        explained,
        apart,
        alloc,
        group,
        sequence,
        first,
        transaction,
        count,
        pen,
    )
}

/// Adds the lines of findings in the transaction of that sequence in the group of that ID, with what explains them where that is asked
/// for, counts them, and then adds the lines of the advice that is told after so many pieces of each rule, and counts all advice. Its
/// first record is on that line of the file. So much is said of the transmission. The levels
/// of all findings and all advice are noted.
fn advised_in<W: Target>(
    manner: Manner,
    alloc: Global,
    said: Said,
    group: u32,
    sequence: u32,
    first: u64,
    transaction: &Transaction,
    count: &mut u64,
    told: &mut AdviceCounts,
    worst: &mut Worst,
    pen: &mut Pen<'_, W>,
) -> Result<(), AllocError>
    requires few { first + length transaction.now ≤ 100000000 }
    ensures adds { AddsLines W.contents W.failures (has_advice transaction.now)
        (advised_after manner told.old said group sequence first transaction.now) result pen.old
        pen.new }
    ensures counted { OnOk result (count.new ≡ told_with count.old (Item.Transaction transaction.now)) }
    ensures told { OnOk result (told.new ≡ counts_after told.old (advice_of said transaction.now)) }
    ensures seen { OnOk result ((asked : Option Level) → is_reached asked worst.new.level
        ≡ (is_reached asked worst.old.level || own_reaches asked said (Item.Transaction transaction.now))) }
{
    let found = advice(alloc, said, transaction)?;
    counted_findings(
        manner.explained,
        manner.apart,
        alloc,
        group,
        sequence,
        first,
        transaction,
        count,
        worst,
        pen,
    )?;
    worst.see_advice(found.as_slice());
    told_lines(
        manner,
        group,
        sequence,
        first,
        transaction,
        found.as_slice(),
        told,
        pen,
    );
    Ok(())
}

/// Adds the lines of findings in the transaction of that sequence in the group of that ID, with what explains them where that is asked
/// for, counts them, and then adds the lines of the advice that is told after so many pieces of each rule, and counts all advice. Its
/// first record is on that line of the file. So much is said of the transmission.
pub fn advised<W: Target>(
    manner: Manner,
    alloc: Global,
    said: Said,
    group: u32,
    sequence: u32,
    first: u64,
    transaction: &Transaction,
    count: &mut u64,
    told: &mut AdviceCounts,
    pen: &mut Pen<'_, W>,
) -> Result<(), AllocError>
    requires few { first + length transaction.now ≤ 100000000 }
    ensures adds { AddsAdvised W.contents W.failures manner told.old said group sequence first
        transaction.now result pen.old pen.new }
    ensures counted { OnOk result (count.new ≡ told_with count.old (Item.Transaction transaction.now)) }
    ensures told { OnOk result (told.new ≡ counts_after told.old (advice_of said transaction.now)) }
{
    advised_in(
        manner,
        alloc,
        said,
        group,
        sequence,
        first,
        transaction,
        count,
        told,
        &mut Worst::nothing(),
        pen,
    )
}

/// Adds the findings of an item that comes after items with these numbers, which say so much of the transmission, and of its advice what
/// is told after so many pieces of each rule, and counts both. The levels of all findings and
/// all advice are noted.
fn own_lines<W: Target>(
    manner: Manner,
    alloc: Global,
    said: Said,
    counts: &Totals,
    item: &Item,
    count: &mut u64,
    told: &mut AdviceCounts,
    worst: &mut Worst,
    pen: &mut Pen<'_, W>,
) -> Result<(), AllocError>
    requires few { counts.now.records + length (item_records item.now) ≤ 99999999 }
    ensures adds { AddsLines W.contents W.failures (has_advised item.now)
        (advised_at manner told.old said counts.now item.now) result pen.old pen.new }
    ensures counted { OnOk result (count.new ≡ told_with count.old item.now) }
    ensures told { OnOk result (told.new ≡ counts_after told.old (own_advice said item.now)) }
    ensures seen { OnOk result ((asked : Option Level) → is_reached asked worst.new.level
        ≡ (is_reached asked worst.old.level || own_reaches asked said item.now)) }
{
    match item {
        Item::Transaction(transaction) => advised_in(
            manner,
            alloc,
            said,
            counts.groups,
            counts.in_group,
            u64::from(counts.records) + 1,
            transaction,
            count,
            told,
            worst,
            pen,
        ),
        Item::Opened(_) | Item::GroupOpened(_) | Item::GroupClosed(_) | Item::Ended => Ok(()),
    }
}

/// Adds what is told of an item among the works before it, where it comes after items with these numbers.
fn work_lines<W: Target>(
    limit: u32,
    counts: &Totals,
    item: &Item,
    repeated: &Repeated,
    pen: &mut Pen<'_, W>,
)
    requires { counts.now.records ≤ 99999999 }
    ensures { Adds W.contents W.failures (repeated_at limit counts.now item.now repeated.now) pen.old
        pen.new }
{
    let Some(header) = work_header(item) else {
        return;
    };
    repeated_text(limit, &Place::after(counts), &header, repeated, pen);
}

/// Adds the same so far as it is told after so many pieces of advice of each rule, and counts it.
fn repeated_lines<W: Target>(
    all: bool,
    limit: u32,
    counts: &Totals,
    item: &Item,
    repeated: &Repeated,
    told: &mut AdviceCounts,
    pen: &mut Pen<'_, W>,
)
    requires { counts.now.records ≤ 99999999 }
    ensures adds { Adds W.contents W.failures (repeated_at limit counts.now item.now
        (shown_repeated all told.old repeated.now)) pen.old pen.new }
    ensures told { told.new ≡ counts_with_repeated told.old repeated.now }
{
    let shown = told.take_repeated(all, repeated);
    work_lines(limit, counts, item, &shown, pen);
}

/// Adds what is written of an item that comes after items with these numbers, which say so much of the transmission: its findings, and
/// after so many pieces of advice of each rule its advice, and what is to be told of it among the works before. Findings and advice are
/// counted. The numbers of so many works are kept. The levels of all findings and all advice are noted.
pub(crate) fn item_lines<W: Target>(
    manner: Manner,
    alloc: Global,
    said: Said,
    limit: u32,
    counts: &Totals,
    item: &Item,
    repeated: &Repeated,
    count: &mut u64,
    told: &mut AdviceCounts,
    worst: &mut Worst,
    pen: &mut Pen<'_, W>,
) -> Result<(), AllocError>
    requires room { counts.now.records ≤ 99999999 }
    requires few { counts.now.records + length (item_records item.now) ≤ 99999999 }
    ensures adds { AddsLines W.contents W.failures (has_advised item.now)
        (advised_at manner told.old said counts.now item.now
        ++ repeated_at limit counts.now item.now
        (shown_repeated manner.all (counts_after told.old (own_advice said item.now)) repeated.now))
        result pen.old pen.new }
    ensures counted { OnOk result (count.new ≡ told_with count.old item.now) }
    ensures told { OnOk result (told.new ≡ counts_with_repeated
        (counts_after told.old (own_advice said item.now)) repeated.now) }
    ensures seen { OnOk result ((asked : Option Level) → is_reached asked worst.new.level
        ≡ (is_reached asked worst.old.level || reaches_at asked said item.now repeated.now)) }
{
    own_lines(manner, alloc, said, counts, item, count, told, worst, pen)?;
    worst.see_repeated(repeated);
    repeated_lines(manner.all, limit, counts, item, repeated, told, pen);
    Ok(())
}
