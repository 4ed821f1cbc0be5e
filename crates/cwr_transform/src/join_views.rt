//! What is seen of transmissions while they are joined.

ghost use Rattle.std.specs.Prelude.{◌≡◌, ◌++◌, ◌∷◌, [], false};
ghost use Rattle.cwr_tools.specs.Format.Watching.{AreFindingsIn};
ghost use Rattle.cwr_transform.specs.Format.Openings.{openings_in};

use crate::repeated_works::RepeatedWorks;
use cwr_lines::ControlRecord;
use cwr_tools::{FindingView, Viewer};
use cwr_values::Item;
use std::alloc::Global;

/// The headers of the transmissions that are joined, the findings in them, and the works whose numbers stand in two of them.
#[derive(Drop)]
pub(crate) struct JoinView {
    pub(crate) findings: FindingView,
    /// The number of the first transmission, from 1, that has a finding of the worst level.
    pub(crate) worst_input: usize,
    /// The HDR of each transmission so far, where memory was never refused.
    pub(crate) openings: Vec<ControlRecord>,
    /// Memory for one of these was refused.
    pub(crate) lacks_openings: bool,
    pub(crate) works: RepeatedWorks,
}

impl JoinView {
    /// Before the first item. The numbers of so many works are to be kept.
    pub(crate) fn new(alloc: Global, repeated: u32) -> JoinView
        ensures findings { AreFindingsIn result.findings.count [] }
        ensures openings { result.openings.items ≡ [] }
    {
        JoinView {
            findings: FindingView::new(alloc),
            worst_input: 0,
            openings: Vec::new(alloc),
            lacks_openings: false,
            works: RepeatedWorks::new(alloc, repeated),
        }
    }

    /// Whether memory was refused for what is seen.
    pub(crate) fn lacks_memory(&self) -> bool
        ensures { result ≡ false → self.now.findings.lacks_memory ≡ false }
    {
        self.findings.lacks_memory || self.lacks_openings || self.works.lacks_memory
    }

    /// Keeps the HDR of a transmission.
    fn keep_opening(&mut self, opening: &ControlRecord)
        ensures findings { self.new.findings ≡ self.old.findings }
        ensures openings { self.new.lacks_openings ≡ false
            → (self.old.lacks_openings ≡ false)
            × (self.new.openings.items ≡ self.old.openings.items ++ opening.now ∷ []) }
    {
        let is_kept = match opening.clone() {
            Ok(kept) => self.openings.push(kept).is_ok(),
            Err(_) => false,
        };
        self.lacks_openings = self.lacks_openings || !is_kept;
    }
}

impl Viewer for JoinView {
    ghost use Rattle.std.specs.Prelude.{◌≡◌, false};
    ghost use Rattle.cwr_tools.specs.Format.Watching.{AreFindingsIn};
    ghost use Rattle.cwr_transform.specs.Format.Openings.{openings_in};

    ghost has_seen = { λ view items. (view.findings.lacks_memory ≡ false → AreFindingsIn view.findings.count items) × (view.lacks_openings ≡ false → view.openings.items ≡ openings_in items) };

    fn see(&mut self, item: &Item) {
        let worst = self.findings.count.worst;
        self.findings.see(item);
        if self.findings.count.worst != worst {
            self.worst_input = self.openings.len();
        }
        match item {
            Item::Opened(opening) => self.keep_opening(opening),
            Item::Transaction(transaction) => self.works.take(self.openings.len(), transaction),
            Item::GroupOpened(_) | Item::GroupClosed(_) | Item::Ended => {}
        }
    }
}
