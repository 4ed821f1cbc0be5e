//! Reading on to the next item of which a report may tell something.

ghost use Rattle.std.specs.Prelude.{◌≡◌, true};
ghost use Rattle.cwr_decode.specs.Steps.Readings.{CountsReader};
ghost use Rattle.cwr_decode.specs.Steps.LastReads.{ReadsLast};
ghost use Rattle.cwr_tools.specs.Steps.Passing.{IsPassed, ReadsTold};

use crate::totals::Totals;
use cwr_decode::{Keeper, Passed, ReadFault, Reading};
use cwr_devices::Source;
use cwr_values::Item;

/// The most items that are read one by one after none was passed over.
const LONGEST_PAUSE: u32 = 63;

/// What is kept of a work in place of its records, so that clean ones are passed over. Where none was, it pauses: so few lines are
/// judged twice, also where of each work something is told.
#[derive(Drop)]
pub(crate) struct Passing<K> {
    works: K,
    /// How many items are still read before the next try.
    left: u32,
    /// How many were read before the last one.
    pause: u32,
}

impl<K> Passing<K> {
    /// With nothing kept yet.
    pub(crate) fn new(works: K) -> Passing<K> {
        Passing {
            works,
            left: 0,
            pause: 0,
        }
    }

    /// Whether it pauses, and one item less from now on.
    fn pauses(&mut self) -> bool {
        let is_pause = self.left > 0;
        self.left = self.left.saturating_sub(1);
        is_pause
    }

    /// Notes whether works were passed over.
    fn note(&mut self, passed: &Passed) {
        self.pause = if passed.transactions > 0 {
            0
        } else {
            (2 * self.pause.min(LONGEST_PAUSE) + 1).min(LONGEST_PAUSE)
        };
        self.left = self.pause;
    }
}

/// Reads the next item of which something may be told, where nobody needs the one before any more. Where clean transactions may be
/// passed over, it counts those that are.
pub(crate) fn read_on<K: Keeper, R: Source>(
    passes: bool,
    reading: &mut Reading<'_, R>,
    works: &mut Passing<K>,
    counts: &mut Totals,
    spent: Option<Item>,
) -> Result<Option<Item>, ReadFault>
    ensures same_reference { reading.new.reader.ghost_name ≡ reading.old.reader.ghost_name }
    ensures told { ReadsTold (IsPassed passes K.are_clean) reading.old.decoder
        (R.remaining reading.old.reader.now) counts.old result reading.new.decoder
        (R.remaining reading.new.reader.now) counts.new }
    ensures failures { CountsReader result (R.failures reading.old.reader.now)
        (R.failures reading.new.reader.now) }
    ensures last { ReadsLast (R.remaining reading.old.reader.now)
        (R.remaining reading.new.reader.now) reading.old.last reading.new.last }
{
    if !passes || works.pauses() {
        return reading.next_item_after(spent);
    }
    let (passed, answer) = reading.next_item_passing(&mut works.works);
    works.note(&passed);
    counts.pass(&passed);
    answer
}
