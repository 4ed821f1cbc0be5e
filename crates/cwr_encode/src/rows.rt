//! Rows that are put to a sink, line by line.

ghost use Rattle.std.specs.Prelude.{◌≡◌, ◌≤◌, [], ◌∷◌, length, false, IfErr};
ghost use Rattle.cwr_lines.specs.Format.Records.{row_of};
ghost use Rattle.cwr_values.specs.Format.Rows.{canonical_line};
ghost use Rattle.cwr_devices.specs.Steps.Sinks.{Puts, has_failed, written_of};
ghost use Rattle.cwr_encode.specs.Steps.Texts.{text_from};

use cwr_devices::{Sink, SinkFault, Target};
use cwr_fields::SpelledPair;
use cwr_lines::{CanonicalLine, RecordRef};
use cwr_values::Transaction;

/// Puts the canonical line of a record with these numbers. The line is made in the buffer.
pub(crate) fn put_row<W: Target>(
    sink: &mut Sink<W>,
    line: &mut CanonicalLine,
    shown: &RecordRef<'_>,
    numbers: &[u64],
) -> Result<(), SinkFault>
    requires { has_failed sink.old ≡ false }
    ensures puts { Puts W.contents W.failures (canonical_line (row_of numbers.now shown.now)) result
        sink.old sink.new }
    ensures fault { IfErr result (λ f. f.written ≡ written_of sink.new) }
{
    line.set(shown, numbers);
    sink.put(line.as_slice())
}

/// Puts the canonical text of a whole transaction, which has that number in its group, line by line.
fn put_lines<W: Target>(
    sink: &mut Sink<W>,
    line: &mut CanonicalLine,
    transaction: &Transaction,
    number: u64,
) -> Result<(), SinkFault>
    requires unfailed { has_failed sink.old ≡ false }
    requires few { length transaction.now ≤ 999999 }
    ensures puts { Puts W.contents W.failures (text_from number 0 transaction.now) result sink.old
        sink.new }
    ensures fault { IfErr result (λ f. f.written ≡ written_of sink.new) }
{
    let mut i = 0;
    while let Some(shown) = transaction.record(i) {
        put_row(sink, line, &shown, &[number, i as u64])?;
        i += 1;
    }
    Ok(())
}

/// Puts the canonical text of a whole transaction, which has that number in its group: at once where just that is kept.
/// `expected` keeps the numbers of the line that was looked at last.
pub(crate) fn put_transaction<W: Target>(
    sink: &mut Sink<W>,
    line: &mut CanonicalLine,
    expected: &mut SpelledPair,
    transaction: &Transaction,
    number: u64,
) -> Result<(), SinkFault>
    requires unfailed { has_failed sink.old ≡ false }
    requires few { length transaction.now ≤ 999999 }
    ensures puts { Puts W.contents W.failures (text_from number 0 transaction.now) result sink.old
        sink.new }
    ensures fault { IfErr result (λ f. f.written ≡ written_of sink.new) }
{
    match transaction.numbered_text(expected, number) {
        Some(text) => sink.put(text),
        None => put_lines(sink, line, transaction, number),
    }
}
