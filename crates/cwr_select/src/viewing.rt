//! Looking at the items of a transmission while some of its transactions are selected.

use cwr_tools::Blind;
use cwr_values::Item;

/// Who sees the items of a transmission, one after another, while some of its transactions are selected.
pub trait SelectViewer {
    ghost use Rattle.std.specs.Prelude.{List, [], ◌∷◌, ◌++◌};
    ghost use Rattle.cwr_values.specs.declared.items.Item.{Item};

    // It was as the first says before it saw these items, and is as the second one says now.
    ghost has_seen: { Self → Self → List Item → Type 0 };

    /// Sees one item more.
    fn see(&mut self, item: &Item)
        ensures { (first : Self) (items : List Item) → has_seen first self.old items
            → has_seen first self.new (items ++ item.now ∷ []) };
}

impl SelectViewer for Blind {
    ghost has_seen = { λ first viewer items. Unit {0} };

    fn see(&mut self, _: &Item) {}
}
