//! Reading what was sent.

ghost use Rattle.std.specs.Prelude.{◌≡◌, IfOk, IfErr, MatchResult};
ghost use Rattle.cwr_decode.specs.Format.Runs.{TakesFront};
ghost use Rattle.cwr_decode.specs.Steps.Readings.{CountsFault};
ghost use Rattle.cwr_decode.specs.Steps.Runs.{StopsReading};
ghost use Rattle.cwr_sent.specs.Format.SentFacts.{content_of};
ghost use Rattle.cwr_sent.specs.Format.SentRows.{IsFresh, content_in};
ghost use Rattle.cwr_values.specs.Format.Values.{TransmissionValue};

use crate::tables::Sent;
use cwr_decode::{ReadFault, Reading};
use cwr_devices::Source;
use cwr_shape::Limits;
use std::alloc::Global;

/// Reads a transmission that was sent, and keeps a few bytes of each transaction. Just the bytes that spell it are consumed.
pub fn read_sent<R: Source>(
    alloc: Global,
    limits: Limits,
    reader: &mut R,
) -> Result<Sent, ReadFault>
    ensures takes { IfOk result (λ sent. (v : TransmissionValue)
        × TakesFront limits (R.remaining reader.old) v (R.remaining reader.new)
        × (content_in sent ≡ content_of v)) }
    // None of them is answered.
    ensures fresh { IfOk result IsFresh }
    ensures stops { IfErr result
        (λ fault. StopsReading limits fault (R.remaining reader.old) (R.remaining reader.new)) }
    ensures failures { MatchResult result (λ _. R.failures reader.new ≡ R.failures reader.old)
        (λ fault. CountsFault fault (R.failures reader.old) (R.failures reader.new)) }
{
    let mut reading = Reading::new(alloc, limits, reader);
    let mut sent = Sent::new(alloc);
    let mut items: u32 = 0;
    'items: while let Some(item) = reading.next_item()? {
        if sent.add(&item).is_err() {
            return Err(ReadFault::Memory);
        }
        items += 1;
    }
    Ok(sent)
}
