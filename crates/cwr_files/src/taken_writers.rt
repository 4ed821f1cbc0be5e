//! Writers that were taken, which clauses alone read. It has no bytes, and its calls do nothing.

ghost use Rattle.std.specs.Prelude.{◌≡◌, List, [], ◌∷◌, ◌++◌};
ghost use Rattle.std.specs.Borrow.{ftrue};

use std::marker::{Model, PhantomData};

/// All writers that were taken so far, as they were then.
#[derive(Drop)]
pub(crate) struct TakenWriters<W> {
    of: PhantomData<W>,
    pub ghost writers: { List W },
}

impl<W> Model for TakenWriters<W> {
    ghost also_owns = { λ _. ftrue };
}

impl<W> TakenWriters<W> {
    /// None were.
    pub(crate) fn new() -> TakenWriters<W>
        ensures { result.writers ≡ [] }
    {
        TakenWriters { of: PhantomData }
    }

    /// This one was too.
    #[inline(always)]
    pub(crate) fn and(&self, _writer: &W) -> TakenWriters<W>
        ensures { result.writers ≡ self.now.writers ++ _writer.now ∷ [] }
    {
        TakenWriters { of: PhantomData }
    }
}
