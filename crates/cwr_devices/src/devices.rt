//! Readers and writers that show their bytes and how often they failed.

ghost use Rattle.std.specs.Prelude.{◌≡◌, ℕ, ◌+◌, ◌-◌, ◌<◌, ◌≤◌, Bool, true, false, List, [], length, drop, Option, Some, IfSome, IfOk, OnOk};
ghost use Rattle.std.specs.Io.{StartsWith};
ghost use Rattle.std.specs.Io.BufRead.{Rests};
ghost use Rattle.std.specs.Io.KnownBytes.{Keeps, WriteAppends};
ghost use types.Logic.{sem};
ghost use Rattle.cwr_devices.specs.Format.DeviceFaultTexts.{device_fault_text};
ghost use Rattle.cwr_devices.specs.Format.Failures.{CountsFailure, most_failures};
ghost use Rattle.cwr_devices.specs.Steps.Failures.{ShowsBytes};

use std::error::Error;
use std::fmt::{self, Display, Formatter, Write};

/// A device failed. The device counted it.
#[derive(Clone, Copy, Debug, PartialEq, Eq)]
pub struct DeviceFault;

impl Display for DeviceFault {
    ghost output = { λ fault. Some device_fault_text };

    fn fmt<O: Write>(&self, f: &mut Formatter<O>) -> fmt::Result {
        f.pad("the device failed")
    }
}

impl Error for DeviceFault {}

/// Counts a failure, and answers the fault that reports it.
pub(crate) fn count_failure(failures: &mut u64) -> DeviceFault
    requires { failures.old < most_failures }
    ensures { failures.new ≡ failures.old + 1 }
{
    *failures += 1;
    DeviceFault
}

/// A reader of bytes, which counts its failures. After `u64::MAX` of them every `fill` fails.
pub trait Source {
    // The bytes that are left, where they are known.
    ghost remaining: { Self → Option (List ℕ) };

    // Of the bytes that the last `fill` showed, how many weren't consumed since.
    ghost shown: { Self → ℕ };

    // How many calls failed.
    ghost failures: { Self → ℕ };

    /// Shows bytes that come next, and takes none. It shows none only at the end.
    fn fill(&mut self) -> Result<&[u8], DeviceFault>
        ensures front { IfSome (remaining self.old)
            (λ left. IfOk result (λ bytes. StartsWith left bytes.now)) }
        ensures end { IfSome (remaining self.old)
            (λ left. IfOk result (λ bytes. length bytes.now ≡ 0 → left ≡ [])) }
        ensures* after_borrow { sem 𝓛 (Rests Self.row self.entry (λ new.
            ShowsBytes (remaining self.old) (remaining new) (shown new) result
            (failures self.old) (failures new))) };

    /// Takes the next `count` bytes, of those that the last `fill` showed.
    fn consume(&mut self, count: usize)
        requires { count ≤ shown self.old }
        ensures bytes { IfSome (remaining self.old)
            (λ left. remaining self.new ≡ Some (drop count left)) }
        ensures shown { shown self.new ≡ shown self.old - count }
        ensures failures { failures self.new ≡ failures self.old };
}

/// A writer of bytes, which counts its failures. After `u64::MAX` of them every call fails.
pub trait Target {
    // The bytes that were written, where they are known.
    ghost contents: { Self → Option (List ℕ) };

    // Whether all that was written was handed on.
    ghost handed_on: { Self → Bool };

    // How many calls failed.
    ghost failures: { Self → ℕ };

    /// Writes the text's first bytes, and says how many: at least one of a text that isn't empty.
    /// A call that fails writes nothing.
    fn write(&mut self, text: &[u8]) -> Result<usize, DeviceFault>
        ensures bound { IfOk result (λ count. count ≤ length text.now) }
        ensures some { IfOk result (λ count. count ≡ 0 → text.now ≡ []) }
        ensures bytes { WriteAppends (contents self.old) (contents self.new) result text.now }
        ensures waits { handed_on self.new ≡ false }
        ensures failures { CountsFailure result (failures self.old) (failures self.new) };

    /// Hands on what was written so far.
    fn flush(&mut self) -> Result<(), DeviceFault>
        ensures bytes { Keeps (contents self.old) (contents self.new) }
        ensures handed_on { OnOk result (handed_on self.new ≡ true) }
        ensures failures { CountsFailure result (failures self.old) (failures self.new) };
}
