//! A reader that keeps the digest of what is read.

ghost use Rattle.std.specs.Option.{is_some};
ghost use Rattle.std.specs.Prelude.{◌≡◌, ◌-◌, ◌^◌, ◌++◌, min, ℕ, Bool, false, List, [], Option, None, length};
ghost use Rattle.std.specs.Io.KnownBytes.{Consumes, IsAtEnd};
ghost use Rattle.cwr_digests.specs.Format.Digests.{HasBytes};
ghost use Rattle.cwr_digests.specs.Steps.Digested.{Consumes-prop, HoldsIf, HoldsIf-prop};

use cwr_files::{Piece, TakenText};
use sha2::{Digest, Sha256};
use std::io;
use std::io::Read;
use std::marker::{Brand, PhantomData};

/// What a reader has before it is read, for clauses to name.
pub trait Whole {
    // All its bytes, where they are known.
    ghost whole: { Option (List ℕ) };

    // Whether their digest is asked for.
    ghost digests: { Bool };
}

impl Whole for Brand {
    ghost whole = { None };

    ghost digests = { false };
}

/// A reader that counts the bytes that are read, and keeps their digest where that is asked for.
#[derive(Drop)]
pub struct DigestedRead<B: Whole, I: Read> {
    inner: I,
    hasher: Option<Sha256>,
    bytes: u64,
    /// All that was read.
    taken: TakenText,
    of: PhantomData<B>,
    ghost asked: { is_some hasher ≡ B.digests },
    ghost holds: { HoldsIf hasher taken.text } by { HoldsIf-prop _ _ },
    ghost counted: { bytes ≡ min (length taken.text) (2 ^ 64 - 1) },
    ghost read: { Consumes B.whole (I.remaining inner) taken.text } by { Consumes-prop _ _ _ },
}

/// Adds a piece to what the hasher holds, if there is one.
fn hash(hasher: &mut Option<Sha256>, piece: &[u8])
    ensures holds { (text : List ℕ) → HoldsIf hasher.old text → HoldsIf hasher.new (text ++ piece.now) }
    ensures kept { is_some hasher.new ≡ is_some hasher.old }
{
    if let Some(hasher) = hasher {
        hasher.update(piece);
    }
}

impl<B: Whole, I: Read> DigestedRead<B, I> {
    /// A reader of which nothing was read.
    pub fn new(inner: I, digests: bool) -> DigestedRead<B, I>
        requires whole { B.whole ≡ I.remaining inner }
        requires asked { B.digests ≡ digests }
        ensures inner { result.inner ≡ inner }
    {
        DigestedRead {
            inner,
            hasher: if digests { Some(Sha256::new()) } else { None },
            bytes: 0,
            taken: TakenText::new(),
            of: PhantomData,
        }
    }

    /// The reader itself, with how many bytes were read, and their digest where that was asked for.
    pub fn end(self) -> (I, u64, Option<[u8; 32]>)
        ensures inner { result.0 ≡ self.inner }
        // Where it was read to its end, they are all its bytes.
        ensures bytes { IsAtEnd (I.remaining self.inner) → HasBytes B.digests B.whole result.1 result.2 }
    {
        let digest = match self.hasher {
            Some(hasher) => Some(hasher.finalize()),
            None => None,
        };
        (self.inner, self.bytes, digest)
    }
}

impl<B: Whole, I: Read> Read for DigestedRead<B, I> {
    ghost remaining = { λ it. I.remaining it.inner };

    fn read(&mut self, buf: &mut [u8]) -> io::Result<usize> {
        let count = self.inner.read(buf)?;
        let piece = &buf[..count];
        hash(&mut self.hasher, piece);
        self.bytes = self.bytes.saturating_add(count as u64);
        self.taken = self.taken.and(&Piece { bytes: piece });
        Ok(count)
    }
}
