//! Looking at the items of transmissions that are read to be written anew.

ghost use Rattle.std.specs.Prelude.{◌≡◌, ◌++◌, ◌∷◌, [], List, false, IsTrue};
ghost use Rattle.cwr_lines.specs.Format.Records.{RecordValue};
ghost use Rattle.cwr_values.specs.declared.items.Item.{Item};
ghost use Rattle.cwr_findings.specs.Format.Findings.{findings};
ghost use Rattle.cwr_findings.specs.Steps.Sums.{StandFor};
ghost use Rattle.cwr_tools.specs.Format.Watching.{AreFindingsIn};

use crate::finding_counts::FindingCount;
use cwr_fields::Kind;
use cwr_findings::{Sums, findings};
use cwr_lines::RecordRef;
use cwr_values::{Item, Transaction};
use std::alloc::Global;

/// Who sees the items of transmissions, one after another, while they are read to be written anew.
pub trait Viewer {
    ghost use Rattle.std.specs.Prelude.{List, [], ◌∷◌, ◌++◌};
    ghost use Rattle.cwr_values.specs.declared.items.Item.{Item};

    // It has seen these items.
    ghost has_seen: { Self → List Item → Type 0 };

    /// Sees one item more.
    fn see(&mut self, item: &Item)
        ensures { (items : List Item) → has_seen self.old items
            → has_seen self.new (items ++ item.now ∷ []) };
}

/// Who looks at nothing.
#[derive(Clone, Copy, Debug)]
pub struct Blind;

impl Viewer for Blind {
    ghost has_seen = { λ viewer items. Unit {0} };

    fn see(&mut self, _: &Item) {}
}

/// A type for each kind of record of which much is kept, and one for all others: a function has an instance for each.
struct OfSpu;

struct OfOpu;

struct OfSpt;

struct OfSwr;

struct OfOwr;

struct OfSwt;

struct OfPwr;

struct OfAlt;

struct OfPer;

struct OfRec;

struct OfAny;

/// Adds the transaction's next record to the sums, and says whether it does: a no says nothing. In each arm the compiler knows the kind,
/// so that just what is asked of that one is left.
#[inline(always)]
fn add_next(sums: &mut Sums, next: &RecordRef<'_>) -> bool
    ensures { (records : List RecordValue) → StandFor sums.old records → IsTrue result
        → StandFor sums.new (records ++ next.now ∷ []) }
{
    match next.kind() {
        Kind::Spu => sums.add::<OfSpu>(next),
        Kind::Opu => sums.add::<OfOpu>(next),
        Kind::Spt => sums.add::<OfSpt>(next),
        Kind::Swr => sums.add::<OfSwr>(next),
        Kind::Owr => sums.add::<OfOwr>(next),
        Kind::Swt => sums.add::<OfSwt>(next),
        Kind::Pwr => sums.add::<OfPwr>(next),
        Kind::Alt => sums.add::<OfAlt>(next),
        Kind::Per => sums.add::<OfPer>(next),
        Kind::Rec => sums.add::<OfRec>(next),
        _ => sums.add::<OfAny>(next),
    }
}

/// Whether a transaction surely has no finding, by sums over its records: a no says nothing. It takes no memory.
fn is_clean(sums: &mut Sums, transaction: &Transaction) -> bool
    ensures { IsTrue result → findings transaction.now ≡ [] }
{
    let Some(header) = transaction.record(0) else {
        return false;
    };
    if !sums.begin(&header) {
        return false;
    }
    let count = transaction.len();
    let mut i = 1;
    'records: while i < count {
        let Some(next) = transaction.record(i) else {
            return false;
        };
        if !add_next(sums, &next) {
            return false;
        }
        i += 1;
    }
    sums.is_clean()
}

/// Counts the findings in the items of transmissions.
#[derive(Drop)]
pub struct FindingView {
    alloc: Global,
    /// What is kept of a transaction's records.
    sums: Sums,
    /// How many findings there are, and the worst level of one, where memory was never refused.
    pub count: FindingCount,
    /// Memory for a transaction's findings was refused.
    pub lacks_memory: bool,
}

impl FindingView {
    /// Before the first item.
    pub fn new(alloc: Global) -> FindingView
        ensures { AreFindingsIn result.count [] }
    {
        FindingView {
            alloc,
            sums: Sums::new(),
            count: FindingCount::new(),
            lacks_memory: false,
        }
    }

    /// Counts the findings in a transaction.
    fn count_in(&mut self, transaction: &Transaction)
        ensures { (items : List Item)
            → (self.old.lacks_memory ≡ false → AreFindingsIn self.old.count items)
            → self.new.lacks_memory ≡ false
            → AreFindingsIn self.new.count (items ++ Item.Transaction transaction.now ∷ []) }
    {
        if is_clean(&mut self.sums, transaction) {
            return;
        }
        match findings(self.alloc, transaction) {
            Ok(found) => self.count.add(found.as_slice()),
            Err(_) => self.lacks_memory = true,
        }
    }
}

impl Viewer for FindingView {
    ghost use Rattle.std.specs.Prelude.{◌≡◌, false};
    ghost use Rattle.cwr_tools.specs.Format.Watching.{AreFindingsIn};

    ghost has_seen = { λ view items. view.lacks_memory ≡ false → AreFindingsIn view.count items };

    fn see(&mut self, item: &Item) {
        if let Item::Transaction(transaction) = item {
            self.count_in(transaction);
        }
    }
}
