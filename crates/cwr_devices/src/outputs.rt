//! Outputs, one after another.

ghost use Rattle.std.specs.Prelude.{◌≡◌, ℕ, ◌-◌, [], List, Option, Some, true, IfOk, IfSome, OnErr, OnOk};
ghost use Rattle.cwr_devices.specs.Format.Failures.{CountsFailure};
ghost use Rattle.cwr_devices.specs.Format.Outputs.{AddsText, given_up_with, lent_after};

use crate::devices::Target;

/// An output couldn't be made or finished. The outputs counted it.
#[derive(Clone, Copy, Debug, PartialEq, Eq)]
pub struct OutputFault;

/// Where the outputs of a split go, one after another. It counts its failures, and the writers that failed. After `u64::MAX`
/// failures every `next` and every `done` fails; the number of failed writers stays there too.
pub trait Outputs {
    /// What an output is written to.
    type W: Target + Drop;

    // The texts whose `done` succeeded, in order, where they are known.
    ghost texts: { Self → Option (List (List ℕ)) };

    // How many calls of `next` and `done` failed.
    ghost failures: { Self → ℕ };

    // How many writers were given up that had failed.
    ghost given_up: { Self → ℕ };

    // How many writers that `next` gave haven't come back.
    ghost lent: { Self → ℕ };

    // The bytes of the writer that was given up last, where the texts are known.
    ghost had: { Self → Option (List ℕ) };

    /// The writer of a new output. It hasn't failed, and where the texts are known it has no bytes.
    fn next(&mut self) -> Result<Self::W, OutputFault>
        ensures unfailed { IfOk result (λ writer. Self.W.failures writer ≡ 0) }
        ensures empty { IfSome (texts self.old)
            (λ _. IfOk result (λ writer. Self.W.contents writer ≡ Some [])) }
        ensures kept { texts self.new ≡ texts self.old }
        ensures failures { CountsFailure result (failures self.old) (failures self.new) }
        ensures given_up { given_up self.new ≡ given_up self.old }
        ensures lent { lent self.new ≡ lent_after result (lent self.old) };

    /// Takes an output that is whole, and whose writer hasn't failed and has handed on all of it. Where that fails the writer
    /// is dropped.
    fn done(&mut self, writer: Self::W) -> Result<(), OutputFault>
        requires unfailed { Self.W.failures writer ≡ 0 }
        requires handed_on { Self.W.handed_on writer ≡ true }
        ensures added { OnOk result
            (IfSome (Self.W.contents writer) (AddsText (texts self.old) (texts self.new))) }
        ensures kept { OnErr result (texts self.new ≡ texts self.old) }
        ensures failures { CountsFailure result (failures self.old) (failures self.new) }
        ensures given_up { given_up self.new ≡ given_up self.old }
        ensures lent { lent self.new ≡ lent self.old - 1 };

    /// Takes back the writer of an output that won't be whole. It is counted where it failed.
    fn give_up(&mut self, writer: Self::W)
        ensures kept { texts self.new ≡ texts self.old }
        ensures failures { failures self.new ≡ failures self.old }
        ensures given_up { given_up self.new
            ≡ given_up_with (Self.W.failures writer) (given_up self.old) }
        ensures had { IfSome (texts self.old) (λ _. had self.new ≡ Self.W.contents writer) }
        ensures lent { lent self.new ≡ lent self.old - 1 };
}
