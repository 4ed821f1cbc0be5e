//! Rows, put to a sink.

ghost use Rattle.std.specs.Prelude.{◌≡◌, ◌<◌, length, map, option_map, slice_get, Some};
ghost use Rattle.cwr_devices.specs.Steps.Pens.{Adds};
ghost use Rattle.cwr_sent.specs.Format.SentRows.{shown_in};
ghost use Rattle.cwr_delivery.specs.Steps.Deliveries.{held_in};
ghost use Rattle.cwr_state_rows.specs.Format.RowTexts.{head_of};
ghost use Rattle.cwr_state_rows.specs.Steps.HeldRows.{group_text, held_text, kept_text, kept_texts, numbered, shared_by, transaction_text};
ghost use Rattle.cwr_state_rows.specs.Steps.PutRows.{AddsRows, PutsHeld, PutsRows, PutsTold, put_so};

use crate::faults::RowFault;
use crate::forms::{Form, head};
use crate::row_texts::{Front, row_text};
use crate::senders::sort_to;
use cwr_delivery::{Delivery, wants_answer};
use cwr_devices::{Pen, Sink, SinkFault, Target};
use cwr_sent::{AnsweringFile, KeptAnswer, Sent, SentFacts, SentGroup};
use std::alloc::{AllocError, Global};

/// Adds the rows of answers.
fn answer_rows<W: Target>(
    front: &Front<'_>,
    files: &[AnsweringFile],
    answers: &[KeptAnswer],
    pen: &mut Pen<'_, W>,
)
    ensures { Adds W.contents W.failures (numbered (λ n kept. kept_text (shared_by front.now)
        files.now (Some kept)) 0 answers.now) pen.old pen.new }
{
    let count = answers.len();
    let mut i: usize = 0;
    while let Some(answer) = answers.get(i) {
        prove!(i < count);
        row_text(front, files, Some(answer), pen);
        i += 1;
    }
}

/// Adds the rows of a transaction with these answers.
fn kept_rows<W: Target>(
    front: &Front<'_>,
    files: &[AnsweringFile],
    answers: &[KeptAnswer],
    pen: &mut Pen<'_, W>,
)
    ensures { Adds W.contents W.failures (kept_texts (shared_by front.now) files.now answers.now)
        pen.old pen.new }
{
    if answers.is_empty() {
        row_text(front, files, None, pen);
    } else {
        answer_rows(front, files, answers, pen);
    }
}

/// In what rows are made.
#[derive(Drop)]
struct Buffers {
    /// The answers to a transaction.
    collected: Vec<KeptAnswer>,
    /// The same, by their senders.
    sorted: Vec<KeptAnswer>,
}

/// Adds the rows of transaction `t` of a group.
fn transaction_rows<W: Target>(
    front: &Front<'_>,
    files: &[AnsweringFile],
    group: &SentGroup,
    t: usize,
    buffers: &mut Buffers,
    pen: &mut Pen<'_, W>,
) -> Result<(), AllocError>
    requires there { t < length group.now.facts }
    requires same { front.now.transaction ≡ t }
    ensures { AddsRows W.contents W.failures (transaction_text front.now.form (shared_by front.now).name files.now
        front.now.group group.now.answers t front.now.facts) result pen.old pen.new }
{
    if !wants_answer(&front.facts) {
        return Ok(());
    }
    sort_to(files, group, t, &mut buffers.collected, &mut buffers.sorted)?;
    kept_rows(front, files, buffers.sorted.as_slice(), pen);
    Ok(())
}

/// Adds the rows of a group with that number.
fn group_rows<W: Target>(
    form: Form,
    name: Option<&[u8]>,
    files: &[AnsweringFile],
    number: u64,
    group: &SentGroup,
    buffers: &mut Buffers,
    pen: &mut Pen<'_, W>,
) -> Result<(), AllocError>
    ensures { AddsRows W.contents W.failures (group_text form (option_map (λ n. n.now) name.entry)
        files.now number group.now) result pen.old pen.new }
{
    let count = group.len();
    let mut t: usize = 0;
    while let Some(facts) = group.facts(t) {
        prove!(t < count);
        let front = Front {
            form,
            name,
            group: number,
            transaction: t as u64,
            facts,
        };
        transaction_rows(&front, files, group, t, buffers, pen)?;
        t += 1;
    }
    Ok(())
}

/// Adds the rows of a transmission that was sent under that name.
fn sent_rows<W: Target>(
    form: Form,
    name: Option<&[u8]>,
    files: &[AnsweringFile],
    sent: &Sent,
    buffers: &mut Buffers,
    pen: &mut Pen<'_, W>,
) -> Result<(), AllocError>
    ensures { AddsRows W.contents W.failures (numbered (group_text form (option_map (λ n. n.now) name.entry)
        files.now) 1 (shown_in sent.now).groups) result pen.old pen.new }
{
    let groups = sent.groups();
    for g in 0..groups.len() {
        group_rows(form, name, files, g as u64 + 1, &groups[g], buffers, pen)?;
    }
    Ok(())
}

/// What was added is put, whether memory for the rest was refused or not. The writer's fault is answered first.
fn put_so(put: Result<(), SinkFault>, added: Result<(), AllocError>) -> Result<(), RowFault>
    ensures { result ≡ put_so put added }
{
    match put {
        Ok(()) => match added {
            Ok(()) => Ok(()),
            Err(_) => Err(RowFault::Memory),
        },
        Err(fault) => Err(RowFault::Writer(fault)),
    }
}

/// Puts the rows of a transmission that was sent under that name.
fn put_sent<W: Target>(
    form: Form,
    name: Option<&[u8]>,
    files: &[AnsweringFile],
    sent: &Sent,
    buffers: &mut Buffers,
    sink: &mut Sink<W>,
) -> Result<(), RowFault>
    ensures { PutsRows W.contents W.failures (numbered (group_text form (option_map (λ n. n.now) name.entry)
        files.now) 1 (shown_in sent.now).groups) result sink.old sink.new }
{
    let mut pen = Pen::new(sink);
    let added = sent_rows(form, name, files, sent, buffers, &mut pen);
    put_so(pen.end(), added)
}

/// The name of transmission `i`, from 0.
fn name_at(names: &[Vec<u8>], i: usize) -> Option<&[u8]>
    ensures { option_map (λ n. n.now) result ≡ slice_get (map (λ n. n.items) names.now) i }
{
    let name = names.get(i)?;
    Some(name.as_slice())
}

/// Puts what stands before the rows.
fn put_head<W: Target>(form: Form, sink: &mut Sink<W>) -> Result<(), RowFault>
    ensures { PutsRows W.contents W.failures (head_of form) result sink.old sink.new }
{
    match sink.put(head(form)) {
        Ok(()) => Ok(()),
        Err(fault) => Err(RowFault::Writer(fault)),
    }
}

/// Puts that, and the rows of what was sent.
fn put_delivery<W: Target>(
    form: Form,
    names: &[Vec<u8>],
    delivery: &Delivery,
    buffers: &mut Buffers,
    sink: &mut Sink<W>,
) -> Result<(), RowFault>
    ensures { PutsRows W.contents W.failures (held_text form (map (λ n. n.items) names.now)
        (held_in delivery.now)) result sink.old sink.new }
{
    put_head(form, sink)?;
    let sent = delivery.sent();
    for i in 0..sent.len() {
        put_sent(
            form,
            name_at(names, i),
            delivery.files(),
            &sent[i],
            buffers,
            sink,
        )?;
    }
    Ok(())
}

/// Puts a row for each sender that answers a transaction which was sent, or one where nobody does, in that form: by the transmissions in
/// the order in which they were added, their groups and transactions, and the senders. The names are those of the transmissions, each as
/// `shown_name` has it in the form. Beside what the delivery holds it takes memory for the answers to one transaction.
pub fn put_rows<W: Target>(
    alloc: Global,
    form: Form,
    names: &[Vec<u8>],
    delivery: &Delivery,
    sink: &mut Sink<W>,
) -> Result<(), RowFault>
    // Of a delivery that stands for what was sent and read, by that.
    ensures told { PutsTold W.contents W.failures form (map (λ n. n.items) names.now) delivery.now
        result sink.old sink.new }
    // Of any delivery, by what that keeps.
    ensures held { PutsHeld W.contents W.failures form (map (λ n. n.items) names.now) delivery.now
        result sink.old sink.new }
{
    let mut buffers = Buffers {
        collected: Vec::new(alloc),
        sorted: Vec::new(alloc),
    };
    put_delivery(form, names, delivery, &mut buffers, sink)
}
