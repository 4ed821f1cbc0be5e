//! Whole transmissions that are written.

ghost use Rattle.std.specs.Prelude.{◌≡◌, true, false, Err, None, Some, IfErr, OnOk};
ghost use Rattle.cwr_values.specs.Format.Fits.{value_fault};
ghost use Rattle.cwr_values.specs.Format.Rows.{canonical_text};
ghost use Rattle.cwr_values.specs.declared.transmissions.ValueFault.{ValueFault};
ghost use Rattle.cwr_devices.specs.Steps.Sinks.{Puts, has_failed, written_of};
ghost use Rattle.cwr_encode.specs.Steps.GroupTexts.{IsFew};
ghost use Rattle.cwr_encode.specs.Format.Whole.{refusal_of, WritesAll};

use crate::encoders::{EncodeFault, flushed, trailer};
use crate::group_rows::{put_groups, totals};
use crate::rows::put_row;
use cwr_devices::{Sink, SinkFault, Target};
use cwr_lines::CanonicalLine;
use cwr_shape::{LimitKind, Limits};
use cwr_values::{Transmission, ValueFault};

/// Why a transmission is refused that doesn't fit.
fn refusal_of(fault: ValueFault) -> EncodeFault
    ensures { result ≡ refusal_of fault }
{
    match fault {
        ValueFault::NoGroup => EncodeFault::Incomplete,
        ValueFault::Records => EncodeFault::Limit(LimitKind::Records),
        ValueFault::Groups => EncodeFault::Limit(LimitKind::Groups),
        ValueFault::Transaction { .. } => EncodeFault::Limit(LimitKind::Transaction),
    }
}

/// Puts the canonical text of a transmission.
fn put_transmission<W: Target>(
    sink: &mut Sink<W>,
    transmission: &Transmission,
) -> Result<(), SinkFault>
    requires unfailed { has_failed sink.old ≡ false }
    requires few { IsFew transmission.now }
    ensures puts { Puts W.contents W.failures (canonical_text transmission.now) result sink.old
        sink.new }
    ensures fault { IfErr result (λ f. f.written ≡ written_of sink.new) }
{
    let mut line = CanonicalLine::new();
    let opening = transmission.open().view();
    put_row(sink, &mut line, &opening, &[])?;
    put_groups(sink, &mut line, transmission)?;
    let groups = transmission.len() as u64;
    let (transactions, records) = totals(transmission);
    let end = trailer();
    let last = end.view();
    put_row(sink, &mut line, &last, &[groups, transactions, records])
}

/// Writes the canonical text of a transmission, and has the writer hand it on.
fn write_transmission<W: Target>(
    transmission: &Transmission,
    writer: W,
) -> (W, Result<u64, EncodeFault>)
    requires { IsFew transmission.now }
    ensures writes { WritesAll W.contents W.failures (canonical_text transmission.now) writer
        result.0 result.1 }
    ensures handed_on { OnOk result.1 (W.handed_on result.0 ≡ true) }
{
    let mut sink = Sink::new(writer);
    match put_transmission(&mut sink, transmission) {
        Ok(()) => flushed(sink),
        Err(fault) => (
            sink.into_inner(),
            Err(EncodeFault::Writer {
                written: fault.written,
            }),
        ),
    }
}

/// Writes a transmission whole, and has the writer hand on all that was written. Gives the writer back, and answers how
/// many bytes were written: the length of the canonical text. A transmission without a group is refused as incomplete,
/// and one that isn't within the limits with the first limit that it passes; then nothing is written.
pub fn encode<W: Target>(
    transmission: &Transmission,
    limits: Limits,
    writer: W,
) -> (W, Result<u64, EncodeFault>)
    ensures refused { (fault : ValueFault) → value_fault limits transmission.now ≡ Some fault
        → (result.0 ≡ writer) × (result.1 ≡ Err (refusal_of fault)) }
    ensures written { value_fault limits transmission.now ≡ None
        → WritesAll W.contents W.failures (canonical_text transmission.now) writer result.0 result.1 }
    // All that was written was handed on.
    ensures handed_on { OnOk result.1 (W.handed_on result.0 ≡ true) }
{
    match transmission.fits(limits) {
        Ok(()) => {
            // Each limit is in its range, so that no number has more digits than its field.
            let longest = limits.transaction();
            prove!(longest <= 999_999);
            write_transmission(transmission, writer)
        }
        Err(fault) => (writer, Err(refusal_of(fault))),
    }
}
