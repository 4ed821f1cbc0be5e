//! The walk over a transaction that finds which record breaks which rule.

ghost use Rattle.std.specs.Prelude.{◌≡◌, ◌≢◌, ◌+◌, ◌^◌, ◌<◌, ◌++◌, [], take, true, Some, slice_get, IfOk, OnOk, OnErr};
ghost use Rattle.cwr_findings.specs.Format.Findings.{field_of_rule, level_of_rule, findings, findings_at};
ghost use Rattle.cwr_findings.specs.Steps.Walks.{AreTotals, IsBefore, KnowsNumbersOf, can_break, rules_on};

use crate::before::Before;
use crate::finding_questions::breaks;
use crate::publishers::Publishers;
use crate::registered::Registered;
use crate::rules::{Finding, Rule};
use crate::totals::TransactionTotals;
use cwr_fields::Kind;
use cwr_lines::RecordRef;
use cwr_shape::Level;
use cwr_values::Transaction;
use std::alloc::{AllocError, Global};

/// The rules that a record of the kind can break, in their order.
#[inline(always)]
fn rules_on(kind: Kind) -> &'static [Rule]
    ensures { result.now ≡ rules_on kind }
{
    match kind {
        Kind::Nwr | Kind::Rev => &[Rule::V1, Rule::V3, Rule::V4, Rule::V5, Rule::V6, Rule::V9],
        Kind::Agr => &[Rule::V10],
        Kind::Ter => &[Rule::V11],
        Kind::Spt | Kind::Swt => &[Rule::V2],
        Kind::Pwr => &[Rule::V7],
        Kind::Ewt => &[Rule::V1, Rule::V8],
        Kind::Ver | Kind::Com => &[Rule::V1],
        _ => &[],
    }
}

/// The number of the field that the rule names in a record of the kind, which can break it.
fn field_of(rule: Rule, kind: Kind) -> u8
    requires { can_break rule kind ≡ true }
    ensures { result ≡ field_of_rule rule kind }
{
    match rule {
        Rule::V1 => match kind {
            Kind::Nwr | Kind::Rev => 7,
            _ => 5,
        },
        Rule::V2 | Rule::V7 => 4,
        Rule::V9 => 23,
        Rule::V10 => 8,
        _ => 1,
    }
}

/// How much a finding rejects.
#[inline(always)]
fn level_of(rule: Rule) -> Level
    ensures { result ≡ level_of_rule rule }
{
    match rule {
        Rule::V1 | Rule::V10 => Level::F,
        Rule::V2 | Rule::V7 | Rule::V8 => Level::R,
        _ => Level::T,
    }
}

/// Adds the findings at a record, by rule. It stands after so many others, and these after so many of its transaction.
fn add_findings_at(
    found: &mut Vec<Finding>,
    transaction: &Registered<'_>,
    start: usize,
    totals: &TransactionTotals,
    publishers: &Publishers<'_>,
    before: &Before<'_>,
    sequence: usize,
    shown: &RecordRef<'_>,
) -> Result<(), AllocError>
    requires totals { AreTotals transaction.now totals.now }
    requires publishers { KnowsNumbersOf (take totals.now.publishers_end transaction.now)
        publishers.now }
    requires before { IsBefore (take sequence transaction.now) before.now }
    requires there { slice_get transaction.now sequence ≡ Some shown.now }
    requires room { start + sequence < 2 ^ 64 }
    ensures ok { OnOk result
        (found.new.items ≡ found.old.items ++ findings_at start transaction.now sequence shown.now) }
    ensures err { OnErr result (findings_at start transaction.now sequence shown.now ≢ []) }
{
    let kind = shown.kind();
    for rule in rules_on(kind) {
        if breaks(
            *rule,
            transaction,
            totals,
            publishers,
            before,
            sequence,
            shown,
        ) {
            found.push(Finding {
                rec: start + sequence,
                field: field_of(*rule, kind),
                rule: *rule,
                level: level_of(*rule),
            })?;
        }
    }
    Ok(())
}

/// The findings of a transaction, whole or only begun: which record breaks which rule, by record and then by rule. Of an
/// acknowledgement they are those of its copy.
///
/// # Errors
///
/// Out of memory, and that only where there is a finding: without one it takes none.
pub fn findings(alloc: Global, transaction: &Transaction) -> Result<Vec<Finding>, AllocError>
    ensures ok { IfOk result (λ found. found.items ≡ findings transaction.now) }
    ensures err { OnErr result (findings transaction.now ≢ []) }
{
    let (registered, start) = Registered::of(transaction);
    let totals = TransactionTotals::of(&registered);
    let publishers = Publishers::among(alloc, &registered, totals.publishers_end);
    let mut found = Vec::new(alloc);
    let mut before = Before::none();
    for sequence in 0..registered.len() {
        let Some(shown) = registered.record(sequence) else {
            return Ok(found);
        };
        add_findings_at(
            &mut found,
            &registered,
            start,
            &totals,
            &publishers,
            &before,
            sequence,
            &shown,
        )?;
        before = before.with(&shown);
    }
    Ok(found)
}
