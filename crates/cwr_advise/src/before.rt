//! What the advice on a transaction rests on besides it: what the items before it leave behind.

ghost use Rattle.std.specs.Prelude.{◌≡◌, List, [], ◌++◌, ◌∷◌};
ghost use Rattle.cwr_values.specs.declared.items.Item.{Item};
ghost use Rattle.cwr_advise.specs.Format.AdviceLines.{said_in};
ghost use Rattle.cwr_advise.specs.Steps.AdvisedItems.{IsBefore};

use cwr_advice::Said;
use cwr_values::Item;

/// What the items so far leave behind.
#[derive(Clone, Copy)]
pub(crate) struct Before {
    /// What the header says.
    said: Said,
}

impl Before {
    /// What no items leave behind.
    pub(crate) fn nothing() -> Before
        ensures { IsBefore result [] }
    {
        Before {
            said: Said::nothing(),
        }
    }

    /// With one item more.
    pub(crate) fn with(self, item: &Item) -> Before
        ensures { (items : List Item) → IsBefore self items
            → IsBefore result (items ++ item.now ∷ []) }
    {
        match item {
            Item::Opened(header) => Before {
                said: Said::by(&header.view()),
            },
            Item::GroupOpened(_) | Item::Transaction(_) | Item::GroupClosed(_) | Item::Ended => {
                self
            }
        }
    }

    /// What they say.
    pub(crate) fn said(self) -> Said
        ensures { (items : List Item) → IsBefore self items → result ≡ said_in items }
    {
        self.said
    }
}
