//! The lines of advice at a record.

ghost use Rattle.std.specs.Prelude.{◌≡◌, flat_map};
ghost use Rattle.std.specs.Option.{option_to_list};
ghost use Rattle.cwr_devices.specs.Steps.Pens.{Adds};
ghost use Rattle.cwr_advise.specs.Format.AdviceTexts.{advice_line, cell_line, lines_at_record, words_line};
ghost use Rattle.cwr_advise.specs.Format.RepeatedWorks.{first_line, limit_line, repeated_lines, repeated_text};
ghost use Rattle.cwr_advise.specs.Format.ToldAdvice.{summary_line};

use crate::repeats::{Place, Repeated, WORK_NUMBER};
use cwr_advice::{Advice, AdviceRule};
use cwr_devices::{Pen, Target};
use cwr_lines::RecordRef;
use cwr_notes::{WorkLine, cell_note, gap, where_line};

/// Of each rule so many pieces of advice are told, where not all are.
pub(crate) const MOST_TOLD: u64 = 3;

/// Adds the line on the cell of field `j` of a record on that line of the file, where it carries one.
fn cell_line<W: Target>(number: u64, shown: &RecordRef<'_>, j: u8, pen: &mut Pen<'_, W>)
    ensures { Adds W.contents W.failures (cell_line number shown.now j) pen.old pen.new }
{
    cell_note(number, shown, j, pen);
}

/// Adds the advice in words.
fn words_line<W: Target>(advice: &Advice, pen: &mut Pen<'_, W>)
    ensures { Adds W.contents W.failures (words_line advice.now) pen.old pen.new }
{
    pen.text(b"  advice    ");
    pen.words(advice.rule.words());
    pen.text(b"\n");
}

/// Adds the line of advice in a transaction, whose sequence this is, of the group with this ID.
fn advice_line<W: Target>(group: u32, sequence: u32, advice: &Advice, pen: &mut Pen<'_, W>)
    ensures { Adds W.contents W.failures (advice_line group sequence advice.now) pen.old pen.new }
{
    pen.text(b"ADVICE group ");
    pen.number(group as u64);
    pen.text(b" transaction ");
    pen.number(sequence as u64);
    pen.text(b" record ");
    pen.number(advice.rec as u64);
    pen.text(b" field ");
    pen.number(advice.field as u64);
    pen.text(b" level ");
    pen.words(advice.rule.level().letter());
    pen.text(b" rule ");
    pen.words(advice.rule.name());
    pen.text(b"\n");
}

/// Adds the lines of advice at a record on that line of the file, in a transaction, whose sequence this is, of the group with this
/// ID. The line on its work is that. Where advice stands apart an empty line follows.
pub(crate) fn lines_at_record<W: Target>(
    apart: bool,
    group: u32,
    sequence: u32,
    number: u64,
    work: &WorkLine,
    advice: &Advice,
    shown: &RecordRef<'_>,
    pen: &mut Pen<'_, W>,
)
    ensures { Adds W.contents W.failures
        (lines_at_record apart group sequence number work.now advice.now shown.now) pen.old pen.new }
{
    advice_line(group, sequence, advice, pen);
    where_line(number, shown.kind(), pen);
    pen.text(work.as_slice());
    cell_line(number, shown, advice.field, pen);
    words_line(advice, pen);
    gap(apart, pen);
}

/// Adds how many pieces of advice come from a rule, if not all of them are told, and else nothing.
pub(crate) fn summary_line<W: Target>(all: bool, rule: AdviceRule, count: u64, pen: &mut Pen<'_, W>)
    ensures { Adds W.contents W.failures (summary_line all rule count) pen.old pen.new }
{
    if all || count <= MOST_TOLD {
        return;
    }
    pen.text(b"ADVICE rule ");
    pen.words(rule.name());
    pen.text(b" at ");
    pen.number(count);
    pen.text(b" places, ");
    pen.number(count - MOST_TOLD);
    pen.text(b" of them not shown (--all tells each)\n");
}

/// What is broken by a work whose number stands in a work before it.
const REPEATED: Advice = Advice {
    rec: 0,
    field: WORK_NUMBER,
    rule: AdviceRule::A5a,
};

/// Adds where the first work with a number stands.
fn first_line<W: Target>(first: &Place, pen: &mut Pen<'_, W>)
    ensures { Adds W.contents W.failures (first_line first.now) pen.old pen.new }
{
    pen.text(b"  first     line ");
    pen.number(first.line as u64);
    pen.text(b", group ");
    pen.number(first.group as u64);
    pen.text(b" transaction ");
    pen.number(first.sequence as u64);
    pen.text(b"\n");
}

/// Adds the lines on a work that stands there, and on the first one with its number.
fn repeated_lines<W: Target>(
    place: &Place,
    header: &RecordRef<'_>,
    first: &Place,
    pen: &mut Pen<'_, W>,
)
    ensures { Adds W.contents W.failures (repeated_lines place.now header.now first.now) pen.old
        pen.new }
{
    let number = place.line as u64;
    advice_line(place.group, place.sequence, &REPEATED, pen);
    where_line(number, header.kind(), pen);
    pen.text(WorkLine::by(header).as_slice());
    cell_line(number, header, WORK_NUMBER, pen);
    first_line(first, pen);
    words_line(&REPEATED, pen);
}

/// Adds the same, where there is a first one.
fn repeated_lines_if<W: Target>(
    place: &Place,
    header: &RecordRef<'_>,
    first: &Option<Place>,
    pen: &mut Pen<'_, W>,
)
    ensures { Adds W.contents W.failures
        (flat_map (repeated_lines place.now header.now) (option_to_list first.now)) pen.old pen.new }
{
    if let Some(first) = first {
        repeated_lines(place, header, first, pen);
    }
}

/// Adds the line on the first work whose number isn't kept.
fn limit_line<W: Target>(limit: u32, place: &Place, pen: &mut Pen<'_, W>)
    ensures { Adds W.contents W.failures (limit_line limit place.now) pen.old pen.new }
{
    pen.text(b"LIMIT repeated ");
    pen.number(limit as u64);
    pen.text(b" group ");
    pen.number(place.group as u64);
    pen.text(b" transaction ");
    pen.number(place.sequence as u64);
    pen.text(b"\n");
}

/// Adds the lines on a work that stands there, among those before it. The numbers of so many works are kept.
pub(crate) fn repeated_text<W: Target>(
    limit: u32,
    place: &Place,
    header: &RecordRef<'_>,
    repeated: &Repeated,
    pen: &mut Pen<'_, W>,
)
    ensures { Adds W.contents W.failures
        (repeated_text limit place.now header.now repeated.now.first repeated.now.is_beyond) pen.old
        pen.new }
{
    repeated_lines_if(place, header, &repeated.first, pen);
    if repeated.is_beyond {
        limit_line(limit, place, pen);
    }
}
