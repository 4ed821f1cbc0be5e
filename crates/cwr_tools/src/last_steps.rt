//! What comes after the verdict of a run.

ghost use Rattle.std.specs.Prelude.{◌≡◌, ℕ, Bool, true, List, OnOk, IsTrue};
ghost use Rattle.std.specs.Option.{is_some};
ghost use Rattle.std.specs.Io.KnownBytes.{Appends, Consumes};
ghost use Rattle.cwr_shape.specs.declared.limits.Limits.{Limits};
ghost use Rattle.cwr_tools.specs.Format.Reports.{CountsAfter, CountsReaderFault, CountsWriterFault};
ghost use Rattle.cwr_tools.specs.Format.Verdicts.{IsAnswerTo};
ghost use Rattle.cwr_tools.specs.Steps.LastSteps.{Saying};

use crate::reporting::Front;
use crate::verdicts::{ToolFault, Verdict};
use cwr_devices::{Source, Target};
use cwr_shape::Limits;
use std::alloc::Global;

/// What a run does after the verdict on a text of which it wrote such lines: it may read on, and write words on what it finds.
pub trait LastStep<L> {
    // What was read last is held for it.
    ghost holds: { Self → Bool };

    // That is said of what it writes, as it was and as it is after it, with these lines and limits.
    ghost says: { Self → Self → L → Limits → Saying };

    /// Whether what was read last is held for it.
    fn holds_last(&self) -> bool
        ensures { result ≡ holds self.now };

    /// Goes on after a verdict. The writer comes back, and the verdict, or the fault of a device or of memory.
    fn go_on<R: Source, W: Target>(
        &mut self,
        lines: &L,
        alloc: Global,
        limits: Limits,
        verdict: Verdict,
        front: &Front,
        reader: &mut R,
        writer: W,
    ) -> (W, Result<Verdict, ToolFault>)
        requires held { holds self.old ≡ true → IsTrue (is_some front.now.last) }
        requires handed_on { W.handed_on writer ≡ true }
        ensures says { (words : List ℕ) × Appends (W.contents writer) (W.contents result.0) words
            × says self.old self.new lines.now limits verdict front.now.last (R.remaining reader.old)
            (R.remaining reader.new) result.1 words }
        ensures taken { (more : List ℕ) × Consumes (R.remaining reader.old) (R.remaining reader.new) more }
        ensures answered { IsAnswerTo verdict result.1 }
        ensures counted { CountsAfter W.contents front.now.written writer result.0 result.1 }
        ensures reader_failures { CountsReaderFault result.1 (R.failures reader.old)
            (R.failures reader.new) }
        ensures writer_failures { CountsWriterFault result.1 (W.failures writer)
            (W.failures result.0) }
        ensures handed_on { OnOk result.1 (W.handed_on result.0 ≡ true) };
}
