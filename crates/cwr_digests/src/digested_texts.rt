//! A writer that keeps the digest of what is written, and nothing else.

ghost use Rattle.std.specs.Prelude.{◌≡◌, [], Some};
ghost use Rattle.sha2.specs.Hashers.{Holds256};
ghost use Rattle.sha2.specs.Sha256.{sha256};
ghost use Rattle.cwr_digests.specs.Steps.Digested.{Holds256-prop};

use cwr_devices::{DeviceFault, Target};
use cwr_files::{Piece, TakenText};
use sha2::{Digest, Sha256};

/// A writer that never fails, and keeps the digest of what is written.
#[derive(Drop)]
pub struct DigestedText {
    hasher: Sha256,
    /// All that was written.
    taken: TakenText,
    /// Whether it was handed on.
    is_handed_on: bool,
    ghost holds: { Holds256 hasher taken.text } by { Holds256-prop _ _ },
}

impl DigestedText {
    /// Nothing was written.
    pub fn new() -> DigestedText
        ensures taken { result.taken.text ≡ [] }
    {
        DigestedText {
            hasher: Sha256::new(),
            taken: TakenText::new(),
            is_handed_on: true,
        }
    }

    /// The digest of all that was written.
    pub fn digest(self) -> [u8; 32]
        ensures { result ≡ sha256 self.taken.text }
    {
        self.hasher.finalize()
    }
}

impl Target for DigestedText {
    ghost contents = { λ it. Some it.taken.text };

    ghost handed_on = { λ it. it.is_handed_on };

    ghost failures = { λ it. 0 };

    fn write(&mut self, text: &[u8]) -> Result<usize, DeviceFault> {
        self.hasher.update(text);
        self.taken = self.taken.and(&Piece { bytes: text });
        self.is_handed_on = false;
        Ok(text.len())
    }

    fn flush(&mut self) -> Result<(), DeviceFault> {
        self.is_handed_on = true;
        Ok(())
    }
}
