//! Records as their order sees them.

ghost use Rattle.std.specs.Prelude.{◌≡◌};
ghost use Rattle.cwr_shape.specs.Format.Shapes.{is_carried_symbol};

use cwr_fields::{Kind, Role, TransactionType, is_carried};

/// What the order of records sees of a record: its kind, and of IPA and GRH the role or the type too.
#[derive(Clone, Copy, Debug, PartialEq, Eq)]
pub enum Symbol {
    /// A record of a kind other than IPA and GRH.
    Plain(Kind),
    /// An IPA record of the role.
    Ipa(Role),
    /// A GRH record whose transactions are of the type.
    Grh(TransactionType),
}

impl Symbol {
    /// Whether the record is one that is carried as text.
    #[inline(always)]
    pub(crate) fn is_carried(self) -> bool
        ensures { result ≡ is_carried_symbol self }
    {
        match self {
            Symbol::Plain(kind) => is_carried(kind),
            _ => false,
        }
    }
}
