//! A text that was taken, which clauses alone read. It has no bytes, and its calls do nothing.

ghost use Rattle.std.specs.Prelude.{◌≡◌, ℕ, List, [], ◌++◌};
ghost use Rattle.std.specs.Borrow.{ftrue};

use std::marker::Model;

/// All bytes that were taken so far.
#[derive(Drop)]
pub struct TakenText {
    pub ghost text: { List ℕ },
}

impl Model for TakenText {
    ghost also_owns = { λ _. ftrue };
}

/// Bytes that are taken.
#[derive(Clone, Copy, Drop)]
pub struct Piece<'a> {
    pub bytes: &'a [u8],
}

impl TakenText {
    /// None were.
    pub fn new() -> TakenText
        ensures { result.text ≡ [] }
    {
        TakenText {}
    }

    /// These were too.
    #[inline(always)]
    pub fn and(&self, _piece: &Piece<'_>) -> TakenText
        ensures { result.text ≡ self.now.text ++ _piece.now.bytes.now }
    {
        TakenText {}
    }
}
