//! What a lint holds where a check has met its first fault.

ghost use Rattle.std.specs.Prelude.{◌≡◌, false};
ghost use Rattle.cwr_shape.specs.declared.stages.Stage.TheVariants.{Within};
ghost use Rattle.cwr_lint_lines.specs.Steps.Fronts.{group_at, group_before_header, group_with_transaction, state_at, state_inside, state_outside};
ghost use Rattle.cwr_lint_lines.specs.Steps.Fronts.{transaction_at};

use crate::following::Awaiting;
use crate::states::{LintState, OpenGroup, OpenTransaction};
use cwr_fields::TransactionType;
use cwr_shape::{Counts, Stage, TransactionStep};

/// The open transaction.
fn transaction_at(counts: &Counts) -> OpenTransaction
    ensures { result ≡ transaction_at counts.now }
{
    let run = u64::from(counts.after_header).saturating_add(1);
    OpenTransaction {
        number: u64::from(counts.in_group).saturating_sub(1),
        other: None,
        next: Awaiting::just(run),
        run_before: None,
        run,
    }
}

/// The open group before its first header.
fn group_before_header(ty: TransactionType, counts: &Counts) -> OpenGroup
    ensures { result ≡ group_before_header ty counts.now }
{
    let lines = u64::from(counts.after_grh).saturating_add(1);
    OpenGroup::begun(
        &Awaiting::just(u64::from(counts.groups)),
        None,
        Some(ty),
        lines,
    )
}

/// The open group after its first header.
fn group_with_transaction(ty: TransactionType, counts: &Counts) -> OpenGroup
    ensures { result ≡ group_with_transaction ty counts.now }
{
    let after_grh = u64::from(counts.after_grh);
    let in_group = u64::from(counts.in_group);
    let run = u64::from(counts.after_header).saturating_add(1);
    OpenGroup {
        id: u64::from(counts.groups),
        other_id: None,
        ty: Some(ty),
        declared: Some(ty),
        has_header: true,
        has_line: true,
        lines: after_grh.saturating_add(1),
        headers: in_group,
        next: Awaiting::just(in_group),
        ended: in_group.saturating_sub(1),
        ended_records: Some(after_grh.saturating_sub(run)),
        current: Some(transaction_at(counts)),
    }
}

/// The open group, at a step of its last transaction.
fn group_at(ty: TransactionType, step: TransactionStep, counts: &Counts) -> OpenGroup
    ensures { result ≡ group_at ty step counts.now }
{
    match step {
        TransactionStep::InGroup => group_before_header(ty, counts),
        _ => group_with_transaction(ty, counts),
    }
}

impl LintState {
    /// Where no group is open.
    fn outside(stage: Stage, counts: &Counts, lines: u64) -> LintState
        ensures is { result ≡ state_outside stage counts.now lines }
        ensures lines { result.lines ≡ lines }
        ensures over { result.over ≡ false }
    {
        let groups = u64::from(counts.groups);
        let transactions = u64::from(counts.transactions);
        LintState {
            lines,
            stage: Some(stage),
            group: None,
            ids: Awaiting::just(groups.saturating_add(1)),
            last_id: groups,
            since: lines,
            groups,
            headers: transactions,
            records: Some(lines.saturating_sub(1)),
            transactions,
            anew: 0,
            groups_before: 0,
            headers_before: 0,
            over: false,
        }
    }

    /// Where that group is open.
    fn inside(stage: Stage, group: OpenGroup, counts: &Counts, lines: u64) -> LintState
        ensures is { result ≡ state_inside stage group counts.now lines }
        ensures lines { result.lines ≡ lines }
        ensures over { result.over ≡ false }
    {
        let in_group = u64::from(counts.after_grh).saturating_add(1);
        LintState {
            group: Some(group),
            records: Some(lines.saturating_sub(in_group).saturating_sub(1)),
            transactions: u64::from(counts.transactions).saturating_sub(u64::from(counts.in_group)),
            ..LintState::outside(stage, counts, lines)
        }
    }

    /// After so many lines of records that a check accepts, which have come to a stage, and of which that was counted.
    pub fn at(stage: Stage, counts: &Counts, lines: u64) -> LintState
        ensures is { result ≡ state_at stage counts.now lines }
        ensures lines { result.lines ≡ lines }
        ensures over { result.over ≡ false }
    {
        match stage {
            Stage::Within(ty, step) => LintState::inside(
                stage,
                group_at(ty, step, counts),
                counts,
                lines,
            ),
            _ => LintState::outside(stage, counts, lines),
        }
    }
}
