//! Records as their order sees them.

ghost use Rattle.std.specs.Prelude.{◌≡◌};
ghost use Rattle.cwr_values.specs.Format.Values.{symbol_of};

use cwr_fields::{Kind, Role, TransactionType};
use cwr_lines::RecordRef;
use cwr_shape::Symbol;

/// What the order of records sees of a record: its kind, and of IPA and GRH the role or the type too.
#[inline(always)]
pub fn symbol_of(borrowed: &RecordRef<'_>) -> Symbol
    ensures { result ≡ symbol_of borrowed.now }
{
    match borrowed.kind() {
        Kind::Ipa => Symbol::Ipa(borrowed.read::<Role>(4).unwrap_or(Role::Assignor)),
        Kind::Grh => Symbol::Grh(
            borrowed
                .read::<TransactionType>(2)
                .unwrap_or(TransactionType::Acknowledgement),
        ),
        kind => Symbol::Plain(kind),
    }
}
