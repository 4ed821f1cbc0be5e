//! Works as they are sent: as new or as revised ones.

ghost use Rattle.std.specs.Prelude.{◌≡◌, ◌≢◌, ◌∷◌, ◌++◌, [], IfErr, IfOk, List, OnOk, Some, is_some, slice_get, true, unwrap_or};
ghost use Rattle.cwr_lines.specs.Format.Records.{RecordValue};
ghost use Rattle.cwr_findings.specs.Format.Headers.{is_work};
ghost use Rattle.cwr_shape.specs.Format.Shapes.{BeginsShape};
ghost use Rattle.cwr_values.specs.Format.Begun.{BeginsWithOneMore};
ghost use Rattle.cwr_values.specs.Format.Values.{symbol_of};
ghost use Rattle.cwr_values.specs.declared.items.Item.{Item};
ghost use Rattle.cwr_select.specs.Format.Sent.{head_as, header_as, opens_works, transaction_as};
ghost use Rattle.cwr_select.specs.Steps.Sent.{sent_item, sent_transaction};

use crate::changes::{WorkKind, kind_of};
use crate::copies::{copied, put};
use cwr_fields::{Kind, TransactionType, letters};
use cwr_findings::is_of;
use cwr_lines::{ControlRecord, Record, RecordRef};
use cwr_shape::Symbol;
use cwr_tools::ToolFault;
use cwr_values::{Item, PushFault, Transaction, symbol_of};
use std::alloc::Global;

/// Whether the order sees a GRH of works.
fn opens_works(symbol: Symbol) -> bool
    ensures { result ≡ opens_works symbol }
{
    matches!(
        symbol,
        Symbol::Grh(TransactionType::NewWork | TransactionType::RevisedWork)
    )
}

/// GRH of works with the type that these are sent as.
fn head_as(works: WorkKind, head: &ControlRecord) -> ControlRecord
    requires { opens_works (symbol_of head.now) ≡ true }
    ensures { result ≡ head_as works head.now }
{
    let mut draft = copied(Kind::Grh, &head.view());
    put(&mut draft, 2, letters(kind_of(works)));
    match draft.done() {
        Ok(made) => made.view().to_control(),
        Err(_) => unreachable!(),
    }
}

/// An item that is none of a transaction as it is sent.
pub(crate) fn sent_control(works: Option<WorkKind>, item: Item) -> Item
    requires { (t : List RecordValue) → item ≢ Item.Transaction t }
    ensures { result ≡ sent_item works item }
{
    let Some(works) = works else {
        return item;
    };
    match &item {
        Item::GroupOpened(head) if opens_works(symbol_of(&head.view())) => {
            Item::GroupOpened(head_as(works, head))
        }
        _ => item,
    }
}

/// Whether the header is that of a work.
fn is_work(head: &RecordRef<'_>) -> bool
    ensures { result ≡ is_work head.now }
{
    is_of(head, Kind::Nwr) || is_of(head, Kind::Rev)
}

/// The header of a work with the kind that it is sent with.
fn header_as(works: WorkKind, head: &RecordRef<'_>) -> Record
    requires { is_work head.now ≡ true }
    ensures { result ≡ header_as works head.now }
{
    match copied(kind_of(works), head).done() {
        Ok(made) => made,
        Err(_) => unreachable!(),
    }
}

/// The transaction that begins with the header of a work.
fn begun(alloc: Global, header: RecordRef<'_>) -> Result<Transaction, ToolFault>
    requires { BeginsShape (symbol_of header ∷ []) }
    ensures ok { IfOk result (λ t. t ≡ header.entry ∷ []) }
    ensures err { IfErr result (λ fault. fault ≡ ToolFault.Memory) }
{
    match Transaction::new(alloc, header) {
        Ok(begun) => Ok(begun),
        Err(PushFault::Memory) => Err(ToolFault::Memory),
        Err(PushFault::Misplaced) => unreachable!(),
    }
}

/// Adds the next record.
fn add(sent: &mut Transaction, next: RecordRef<'_>) -> Result<(), ToolFault>
    requires { BeginsWithOneMore sent.old next }
    ensures ok { OnOk result (sent.new ≡ sent.old ++ next.entry ∷ []) }
    ensures err { IfErr result (λ fault. fault ≡ ToolFault.Memory) }
{
    match sent.push(next) {
        Ok(()) => Ok(()),
        Err(PushFault::Memory) => Err(ToolFault::Memory),
        Err(PushFault::Misplaced) => unreachable!(),
    }
}

/// A work with the header that it is sent with.
fn work_as(
    alloc: Global,
    works: WorkKind,
    head: &RecordRef<'_>,
    transaction: &Transaction,
) -> Result<Transaction, ToolFault>
    requires head { slice_get transaction.now 0 ≡ Some head.now }
    requires work { is_work head.now ≡ true }
    ensures ok { IfOk result (λ sent. sent ≡ transaction_as works transaction.now) }
    ensures err { IfErr result (λ fault. fault ≡ ToolFault.Memory) }
{
    let count = transaction.len();
    let header = header_as(works, head);
    let mut sent = begun(alloc, header.view())?;
    for i in 1..count {
        let Some(record) = transaction.record(i) else {
            unreachable!()
        };
        add(&mut sent, record)?;
    }
    Ok(sent)
}

/// A transaction as it is sent, made again where it changes. `None` where it stays.
pub(crate) fn sent_transaction(
    alloc: Global,
    works: Option<WorkKind>,
    transaction: &Transaction,
) -> Result<Option<Transaction>, ToolFault>
    ensures ok { IfOk result
        (λ made. unwrap_or made transaction.now ≡ sent_transaction works transaction.now) }
    ensures err { IfErr result (λ fault. (is_some works ≡ true) × (fault ≡ ToolFault.Memory)) }
{
    let Some(works) = works else {
        return Ok(None);
    };
    let Some(head) = transaction.record(0) else {
        return Ok(None);
    };
    if !is_work(&head) || is_of(&head, kind_of(works)) {
        return Ok(None);
    }
    match work_as(alloc, works, &head, transaction) {
        Ok(sent) => Ok(Some(sent)),
        Err(fault) => Err(fault),
    }
}
