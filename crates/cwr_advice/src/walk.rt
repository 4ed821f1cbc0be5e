//! The walk over a transaction that finds which record breaks which rule.

ghost use Rattle.std.specs.Prelude.{◌≡◌, ◌≢◌, ◌+◌, ◌^◌, ◌<◌, ◌++◌, [], Some, slice_get, IfOk, OnOk, OnErr};
ghost use Rattle.cwr_advice.specs.Format.Rules.{advice_at, advice_of, is_acknowledgement};
ghost use Rattle.cwr_advice.specs.Steps.Facts.{AreFacts};

use crate::advice_questions::breaks;
use crate::asking::asked_of;
use crate::facts::Facts;
use crate::rules::Advice;
use crate::said::Said;
use cwr_fields::Kind;
use cwr_lines::RecordRef;
use cwr_values::Transaction;
use std::alloc::{AllocError, Global};

/// Whether the records begin with an acknowledgement.
fn is_acknowledgement(transaction: &Transaction) -> bool
    ensures { result ≡ is_acknowledgement transaction.now }
{
    transaction.kind() == Kind::Ack
}

/// Adds the advice at a record that stands after so many others, as it is asked for.
fn add_advice_at(
    found: &mut Vec<Advice>,
    said: Said,
    transaction: &Transaction,
    facts: &Facts,
    sequence: usize,
    shown: &RecordRef<'_>,
) -> Result<(), AllocError>
    requires facts { AreFacts transaction.now facts.now }
    requires room { sequence + 1 < 2 ^ 64 }
    ensures ok { OnOk result
        (found.new.items ≡ found.old.items ++ advice_at said transaction.now sequence shown.now) }
    ensures err { OnErr result (advice_at said transaction.now sequence shown.now ≢ []) }
{
    for asked in asked_of(shown.kind()) {
        if breaks(
            said,
            asked.rule,
            transaction,
            facts,
            sequence,
            shown,
            asked.field,
        ) {
            found.push(Advice {
                rec: sequence,
                field: asked.field,
                rule: asked.rule,
            })?;
        }
    }
    Ok(())
}

/// The advice on a transaction that is to be sent, whole or only begun: which record breaks which rule, by record and then as it is
/// asked for. An acknowledgement has none. So much is said of the transmission.
///
/// # Errors
///
/// Out of memory, and that only where there is advice: without any it takes none.
pub fn advice(
    alloc: Global,
    said: Said,
    transaction: &Transaction,
) -> Result<Vec<Advice>, AllocError>
    ensures ok { IfOk result (λ found. found.items ≡ advice_of said transaction.now) }
    ensures err { OnErr result (advice_of said transaction.now ≢ []) }
{
    let mut found = Vec::new(alloc);
    if is_acknowledgement(transaction) {
        return Ok(found);
    }
    let facts = Facts::of(transaction);
    for sequence in 0..transaction.len() {
        let Some(shown) = transaction.record(sequence) else {
            return Ok(found);
        };
        add_advice_at(&mut found, said, transaction, &facts, sequence, &shown)?;
    }
    Ok(found)
}
