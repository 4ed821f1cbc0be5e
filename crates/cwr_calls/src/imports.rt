//! Writing a transmission from lines of JSON.

ghost use Rattle.std.specs.Prelude.{◌≡◌, ◌≢◌, IfOk};
ghost use Rattle.cwr_calls.specs.Format.WrittenTexts.{IsCanonical};

use crate::writing::{CwrWritten, written};
use cwr_devices::{Counted, InMemory, Sink};
use cwr_json::Encoding;
use cwr_shape::Limits;
use cwr_write::{WriteFault, put_write_outcome, write};
use std::alloc::Global;

/// The most bytes of a line of JSON.
const LONGEST_JSON_LINE: usize = 1_000_000_000;

/// How an import that wrote nothing whole ended, in numbers.
fn fault_in_c(fault: &WriteFault) -> CwrWritten
    ensures { result.ending ≢ 0 }
{
    match fault {
        WriteFault::Refused(refusal) => written(8, refusal.line, 0),
        WriteFault::Early { lines } => written(9, *lines, 0),
        WriteFault::Reader | WriteFault::Writer { .. } | WriteFault::Memory => written(6, 0, 0),
    }
}

/// The words that say why nothing whole was written, as the program has them. There are none where memory for them is refused.
fn words_of(alloc: Global, fault: WriteFault) -> Option<Vec<u8>> {
    let mut sink = Sink::new(Counted::new(Vec::new(alloc)));
    match put_write_outcome(&Err(fault), &mut sink) {
        Ok(()) => Some(sink.into_inner().into_inner()),
        Err(_) => None,
    }
}

/// The canonical text of the transmission that lines of JSON are, or the words that say why none was written.
pub(crate) fn import_text(alloc: Global, limits: Limits, text: &[u8]) -> (Vec<u8>, CwrWritten)
    ensures { result.1.ending ≡ 0 → IsCanonical limits result.0.items }
{
    let mut reader = InMemory::new(text);
    let writer = Counted::new(Vec::new(alloc));
    let (writer, outcome) = write(
        alloc,
        limits,
        Encoding::Latin1,
        LONGEST_JSON_LINE,
        &mut reader,
        writer,
    );
    match outcome {
        Ok(_) => (writer.into_inner(), written(0, 0, 0)),
        Err(fault) => {
            let told = fault_in_c(&fault);
            match words_of(alloc, fault) {
                Some(words) => (words, told),
                None => (Vec::new(alloc), written(6, 0, 0)),
            }
        }
    }
}
