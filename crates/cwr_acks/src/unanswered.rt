//! What was sent and isn't answered.

ghost use Rattle.std.specs.Prelude.{◌≡◌, ◌<◌, length, option_map};
ghost use Rattle.cwr_devices.specs.Steps.Pens.{Adds};
ghost use Rattle.cwr_sent.specs.Format.SentRows.{shown_in};
ghost use Rattle.cwr_delivery.specs.Steps.Deliveries.{held_in};
ghost use Rattle.cwr_acks.specs.Format.AckLines.{telling_of};
ghost use Rattle.cwr_acks.specs.Steps.AckSteps.{group_lines, held_if, held_lines, held_lines_if, row_line, sent_lines, unanswered_parts};

use crate::data_texts::unanswered_members;
use crate::forms::{Form, Manner};
use crate::line_texts::unanswered_text;
use crate::names::{name_before, name_member};
use cwr_delivery::{Delivery, wants_answer};
use cwr_devices::{Pen, Target};
use cwr_sent::{Sent, SentFacts, SentGroup};

/// Adds the line of a transaction that isn't answered.
fn unanswered_parts<W: Target>(
    form: Form,
    name: Option<&[u8]>,
    group: u64,
    sequence: u64,
    facts: &SentFacts,
    pen: &mut Pen<'_, W>,
)
    ensures { Adds W.contents W.failures (unanswered_parts form
        (option_map (λ n. n.now) name.entry) group sequence facts.now) pen.old pen.new }
{
    match form {
        Form::Words(cells) => {
            name_before(name, pen);
            unanswered_text(cells, group, sequence, facts, pen);
        }
        Form::Json(encoding) => {
            pen.text(b"{\"unanswered\":{");
            name_member(b"\"sent\":", name, pen);
            unanswered_members(encoding, group, sequence, facts, pen);
        }
    }
}

/// Adds the line of transaction `t` of a group, where that isn't answered.
fn row_line<W: Target>(
    manner: &Manner<'_>,
    name: Option<&[u8]>,
    number: u64,
    group: &SentGroup,
    t: usize,
    facts: &SentFacts,
    pen: &mut Pen<'_, W>,
)
    requires { t < length group.now.facts }
    ensures { Adds W.contents W.failures (row_line (telling_of manner.now)
        (option_map (λ n. n.now) name.entry) number group.now.answers t facts.now) pen.old pen.new }
{
    if !wants_answer(facts) || group.is_answered(t) {
        return;
    }
    unanswered_parts(manner.form, name, number, t as u64, facts, pen);
}

/// Adds the lines of the transactions of a group that aren't answered.
fn group_lines<W: Target>(
    manner: &Manner<'_>,
    name: Option<&[u8]>,
    number: u64,
    group: &SentGroup,
    pen: &mut Pen<'_, W>,
)
    ensures { Adds W.contents W.failures (group_lines (telling_of manner.now)
        (option_map (λ n. n.now) name.entry) number group.now) pen.old pen.new }
{
    let count = group.len();
    let mut t: usize = 0;
    while let Some(facts) = group.facts(t) {
        prove!(t < count);
        row_line(manner, name, number, group, t, &facts, pen);
        t += 1;
    }
}

/// Adds the lines of the transactions that aren't answered of transmission `i` of what was sent.
fn sent_lines<W: Target>(manner: &Manner<'_>, i: usize, sent: &Sent, pen: &mut Pen<'_, W>)
    ensures { Adds W.contents W.failures (sent_lines (telling_of manner.now) i
        (shown_in sent.now)) pen.old pen.new }
{
    let name = manner.name(i);
    let groups = sent.groups();
    for g in 0..groups.len() {
        group_lines(manner, name, g as u64 + 1, &groups[g], pen);
    }
}

/// Adds the lines of the transactions of a delivery that aren't answered.
fn held_lines<W: Target>(manner: &Manner<'_>, delivery: &Delivery, pen: &mut Pen<'_, W>)
    ensures { Adds W.contents W.failures
        (held_lines (telling_of manner.now) (held_in delivery.now)) pen.old pen.new }
{
    let sent = delivery.sent();
    for i in 0..sent.len() {
        sent_lines(manner, i, &sent[i], pen);
    }
}

/// Adds the lines of the transactions that aren't answered, where acknowledgements are matched with what was sent.
pub(crate) fn held_lines_if<W: Target>(
    manner: &Manner<'_>,
    delivery: &Option<Delivery>,
    pen: &mut Pen<'_, W>,
)
    ensures { Adds W.contents W.failures
        (held_lines_if (telling_of manner.now) (held_if delivery.now)) pen.old pen.new }
{
    match delivery {
        Some(delivery) => held_lines(manner, delivery, pen),
        None => {}
    }
}
