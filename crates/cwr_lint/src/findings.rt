//! The open transaction's records, as long as it has no fault, and its findings.

ghost use Rattle.std.specs.Prelude.{◌≡◌, ◌⊎◌, ◌&&◌, ◌++◌, ◌∷◌, [], ◌+◌, ◌-◌, ◌≤◌, ◌^◌, min, nat_le, length, true, false, IfOk, OnOk, None, Some, if◌then◌else◌};
ghost use Rattle.cwr_tools.specs.Steps.Reports.{AddsLines};
ghost use Rattle.cwr_lines.specs.Steps.Held.{held_record};
ghost use Rattle.cwr_values.specs.Format.Begun.{BeginsWithOneMore};
ghost use Rattle.cwr_findings.specs.Format.Findings.{findings};
ghost use Rattle.cwr_advise.specs.Steps.AdviceCounts.{counts_after, told_by};
ghost use Rattle.cwr_lint.specs.Format.FaultsOfLines.{advice_if, ended_lines, said_if, told_lines};
ghost use Rattle.cwr_lint.specs.Steps.Runs.{asking_of};
ghost use Rattle.cwr_lint_lines.specs.Steps.Cells.{held_cut};
ghost use Rattle.cwr_lint.specs.Steps.CutShort.{IsNoneOr, Leaves};
ghost use Rattle.cwr_lint.specs.Steps.Puts.{PutsWith};
ghost use Rattle.cwr_lint_lines.specs.Steps.States.{is_whole};
ghost use Rattle.cwr_lint_lines.specs.declared.takings.Taking.{Taking};
ghost use Rattle.cwr_lint.specs.Steps.Walks.{AfterCarried, AfterJudged, AfterRecord, GoesOnWith, counts_ended, ended_by, ended_in, ends_by_taking, ends_transaction, findings_after, told_ended};

use crate::puts::{Asked, report_number, told_so};
use cwr_advice::Said;
use cwr_advise::{AdviceCounts, Manner, advised};
use cwr_devices::{Pen, Sink, Target};
use cwr_lines::{CutLine, RecordRef};
use cwr_lint_lines::{Judged, Known, LintState, OpenGroup, Taking};
use cwr_tools::{ToolFault, transaction_findings};
use cwr_values::{PushFault, Transaction};
use std::alloc::{AllocError, Global};

/// The most lines up to that after a transaction whose findings are explained.
const MOST_EXPLAINED: u64 = 100_000_000;

/// The transaction that begins with a record, unless none does.
fn begun_with(alloc: Global, next: RecordRef<'_>) -> Result<Option<Transaction>, AllocError>
    ensures { IfOk result (λ new. GoesOnWith [] next.entry new) }
{
    match Transaction::new(alloc, next) {
        Ok(transaction) => Ok(Some(transaction)),
        Err(PushFault::Misplaced) => Ok(None),
        Err(PushFault::Memory) => Err(AllocError),
    }
}

/// The transaction with one record more, unless that may not stand in it.
fn pushed(mut begun: Transaction, next: RecordRef<'_>) -> Result<Option<Transaction>, AllocError>
    ensures { IfOk result (λ new. GoesOnWith begun next.entry new) }
{
    match begun.push(next) {
        Ok(()) => Ok(Some(begun)),
        Err(PushFault::Misplaced) => Ok(None),
        Err(PushFault::Memory) => Err(AllocError),
    }
}

/// The open transaction after the record of a further line, after which the lint is in step or not.
fn after_further(
    begun: Option<Transaction>,
    in_step: bool,
    next: RecordRef<'_>,
) -> Result<Option<Transaction>, AllocError>
    ensures { IfOk result (λ new. AfterRecord Taking.Further in_step begun next.entry new) }
{
    match begun {
        Some(begun) => {
            if in_step {
                pushed(begun, next)
            } else {
                Ok(None)
            }
        }
        None => Ok(None),
    }
}

/// The open transaction after the record of a line that is taken so, and after which the lint is in step or not.
fn after_record(
    alloc: Global,
    begun: Option<Transaction>,
    taken: Taking,
    in_step: bool,
    next: RecordRef<'_>,
) -> Result<Option<Transaction>, AllocError>
    ensures { IfOk result (λ new. AfterRecord taken in_step begun next.entry new) }
{
    match taken {
        Taking::Header(_) => begun_with(alloc, next),
        Taking::Further => after_further(begun, in_step, next),
        _ => Ok(None),
    }
}

/// The open transaction after a line without faults of a known kind, after which the lint is in step or not.
fn after_known(
    alloc: Global,
    begun: Option<Transaction>,
    known: &Known,
    in_step: bool,
    line: &CutLine<'_>,
) -> Result<Option<Transaction>, AllocError>
    ensures { IfOk result
        (λ new. AfterCarried known.now.taken in_step begun (held_record line.now) new) }
{
    match line.record() {
        Some(next) => after_record(alloc, begun, known.taken, in_step, next),
        None => Ok(None),
    }
}

/// The open transaction's records after a line, which is good or not.
pub(crate) fn after_line(
    alloc: Global,
    begun: Option<Transaction>,
    judged: &Judged,
    is_good: bool,
    in_step: bool,
    line: &CutLine<'_>,
) -> Result<Option<Transaction>, AllocError>
    ensures { IfOk result
        (λ new. AfterJudged is_good judged.now in_step begun (held_cut line.now) new) }
{
    match (is_good, judged) {
        (true, Judged::Known(known)) => after_known(alloc, begun, known, in_step, line),
        _ => Ok(None),
    }
}

/// Whether a line ends the open transaction.
fn ends_transaction(judged: &Judged) -> bool
    ensures { result ≡ ends_transaction judged.now }
{
    match judged {
        Judged::Unknown => false,
        Judged::Known(known) => !matches!(known.taken, Taking::Further | Taking::Other),
    }
}

/// Whether a line ends the open transaction, and that is whole.
fn ends_whole(state: &LintState, judged: &Judged) -> bool
    ensures { result ≡ (ends_transaction judged.now && is_whole state.now) }
{
    ends_transaction(judged) && state.is_whole()
}

/// Whether so many records from that line on have numbers that words can name.
fn is_numbered(first: u64, count: u64) -> bool
    ensures { result ≡ nat_le (first + count) 100000000 }
{
    first.saturating_add(count) <= MOST_EXPLAINED
}

/// Whether words stand under findings.
fn is_worded(explained: bool, numbered: bool) -> bool
    ensures { result ≡ (explained && numbered) }
{
    explained && numbered
}

/// What is said of the transmission, where there is to be advice on so many records from that line on.
fn said_if(numbered: bool, said: Option<Said>) -> Option<Said>
    ensures { result ≡ said_if numbered said }
{
    if numbered { said } else { None }
}

/// Adds the lines of findings in a transaction, and counts them, and then those of the advice on it, where that is asked for and its lines
/// have numbers that words can name: of the advice what is told after so many pieces of each rule. All advice is counted.
fn told_lines<W: Target>(
    asked: &Asked<'_>,
    numbered: bool,
    group: u32,
    sequence: u32,
    first: u64,
    transaction: &Transaction,
    told: &mut u64,
    advice: &mut AdviceCounts,
    pen: &mut Pen<'_, W>,
) -> Result<(), AllocError>
    requires few { numbered ≡ true → first + length transaction.now ≤ 100000000 }
    ensures adds { AddsLines W.contents W.failures true (told_lines (asking_of asked.now) numbered
        (told_by asked.now.all advice.old (advice_if (said_if numbered asked.now.said) transaction.now))
        group sequence first transaction.now) result pen.old pen.new }
    ensures counted { OnOk result
        (told.new ≡ min (told.old + length (findings transaction.now)) (2 ^ 64 - 1)) }
    ensures advised { OnOk result (advice.new ≡ counts_after advice.old
        (advice_if (said_if numbered asked.now.said) transaction.now)) }
{
    let apart = asked.name.is_some();
    let explained = is_worded(apart, numbered);
    match said_if(numbered, asked.said) {
        Some(said) => advised(
            Manner {
                explained,
                apart,
                all: asked.all,
            },
            asked.alloc,
            said,
            group,
            sequence,
            first,
            transaction,
            told,
            advice,
            pen,
        ),
        None => transaction_findings(
            explained,
            apart,
            asked.alloc,
            group,
            sequence,
            first,
            transaction,
            told,
            pen,
        ),
    }
}

/// Adds what is told of a transaction, which is that of the open group, and counts its findings and the advice on it.
fn finding_lines<W: Target>(
    asked: &Asked<'_>,
    state: &LintState,
    group: &OpenGroup,
    transaction: &Transaction,
    told: &mut u64,
    advice: &mut AdviceCounts,
    pen: &mut Pen<'_, W>,
) -> Result<(), AllocError>
    ensures adds { AddsLines W.contents W.failures true (ended_lines (asking_of asked.now)
        (told_ended (asking_of asked.now) advice.old
        (ended_in state.now (Some group.now) (Some transaction.now)))
        (ended_in state.now (Some group.now) (Some transaction.now))) result pen.old pen.new }
    ensures counted { OnOk result (told.new ≡ findings_after told.old
        (ended_in state.now (Some group.now) (Some transaction.now))) }
    ensures advised { OnOk result (advice.new ≡ counts_ended (asking_of asked.now) advice.old
        (ended_in state.now (Some group.now) (Some transaction.now))) }
{
    let number = group.open_transaction().number;
    let count = transaction.len() as u64;
    let first = state.lines.saturating_sub(count).saturating_add(1);
    told_lines(
        asked,
        is_numbered(first, count),
        report_number(group.id),
        report_number(number),
        first,
        transaction,
        told,
        advice,
        pen,
    )
}

/// Adds what is told of the open transaction, where its records and its group are known, and counts its findings and the advice on it.
fn open_lines<W: Target>(
    asked: &Asked<'_>,
    state: &LintState,
    begun: &Option<Transaction>,
    told: &mut u64,
    advice: &mut AdviceCounts,
    pen: &mut Pen<'_, W>,
) -> Result<(), AllocError>
    ensures adds { AddsLines W.contents W.failures true (ended_lines (asking_of asked.now)
        (told_ended (asking_of asked.now) advice.old (ended_in state.now state.now.group begun.now))
        (ended_in state.now state.now.group begun.now)) result pen.old pen.new }
    ensures counted { OnOk result (told.new ≡ findings_after told.old
        (ended_in state.now state.now.group begun.now)) }
    ensures advised { OnOk result (advice.new ≡ counts_ended (asking_of asked.now) advice.old
        (ended_in state.now state.now.group begun.now)) }
{
    match (&state.group, begun) {
        (Some(group), Some(transaction)) => finding_lines(
            asked,
            state,
            group,
            transaction,
            told,
            advice,
            pen,
        ),
        _ => Ok(()),
    }
}

/// Adds what is told of the open transaction, where a line ends it, and counts its findings and the advice on it. Nothing is told of one
/// that had a fault, or isn't whole.
fn ended_lines<W: Target>(
    asked: &Asked<'_>,
    state: &LintState,
    begun: &Option<Transaction>,
    judged: &Judged,
    told: &mut u64,
    advice: &mut AdviceCounts,
    pen: &mut Pen<'_, W>,
) -> Result<(), AllocError>
    ensures adds { AddsLines W.contents W.failures true (ended_lines (asking_of asked.now)
        (told_ended (asking_of asked.now) advice.old (ended_by judged.now state.now begun.now))
        (ended_by judged.now state.now begun.now)) result pen.old pen.new }
    ensures counted { OnOk result
        (told.new ≡ findings_after told.old (ended_by judged.now state.now begun.now)) }
    ensures advised { OnOk result (advice.new ≡ counts_ended (asking_of asked.now) advice.old
        (ended_by judged.now state.now begun.now)) }
{
    if ends_whole(state, judged) {
        open_lines(asked, state, begun, told, advice, pen)
    } else {
        Ok(())
    }
}

/// Puts it.
pub(crate) fn put_ended<W: Target>(
    asked: &Asked<'_>,
    state: &LintState,
    begun: &Option<Transaction>,
    judged: &Judged,
    told: &mut u64,
    advice: &mut AdviceCounts,
    sink: &mut Sink<W>,
) -> Result<(), ToolFault>
    ensures puts { PutsWith (λ _ text. text ≡ ended_lines (asking_of asked.now)
        (told_ended (asking_of asked.now) advice.old (ended_by judged.now state.now begun.now))
        (ended_by judged.now state.now begun.now)) W.contents W.failures result sink.old sink.new }
    ensures leaves { Leaves (IsNoneOr (ended_lines (asking_of asked.now)
        (told_ended (asking_of asked.now) advice.old (ended_by judged.now state.now begun.now))
        (ended_by judged.now state.now begun.now))) W.contents result sink.old sink.new }
    ensures counted { OnOk result
        (told.new ≡ findings_after told.old (ended_by judged.now state.now begun.now)) }
    ensures advised { OnOk result (advice.new ≡ counts_ended (asking_of asked.now) advice.old
        (ended_by judged.now state.now begun.now)) }
{
    let mut pen = Pen::new(sink);
    let lines = ended_lines(asked, state, begun, judged, told, advice, &mut pen);
    told_so(pen.end(), lines)
}
