//! What is kept of the records of a transaction in place of them.

ghost use Rattle.std.specs.Prelude.{◌≡◌, ◌++◌, ◌∷◌, [], List, IsTrue};
ghost use Rattle.cwr_lines.specs.Format.Records.{RecordValue};

use cwr_lines::RecordRef;

/// What is kept of the records of a transaction in place of them, to tell whether it surely is as it should be. A no is right
/// anywhere: it says nothing.
pub trait Keeper {
    // What is kept stands for these records. It may stand for others too: many records have the same sums.
    ghost stands_for: { Self → List RecordValue → Type 0 };

    // What is asked of the records of a whole transaction.
    ghost are_clean: { List RecordValue → Type 0 };

    /// Begins with the first record of a transaction, and says whether it does.
    fn begin(&mut self, header: &RecordRef<'_>) -> bool
        ensures { IsTrue result → stands_for self.new (header.now ∷ []) };

    /// Adds one record more, and says whether it does. `A` says nothing of it: where there is an instance for each kind, the
    /// compiler knows the kind there.
    fn add<A>(&mut self, next: &RecordRef<'_>) -> bool
        ensures { (records : List RecordValue) → stands_for self.old records → IsTrue result
            → stands_for self.new (records ++ next.now ∷ []) };

    /// Whether the transaction surely is as it should be, where these were all its records.
    fn is_clean(&self) -> bool
        ensures { (records : List RecordValue) → stands_for self.now records → IsTrue result
            → are_clean records };
}
