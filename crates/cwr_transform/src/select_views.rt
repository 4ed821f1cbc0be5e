//! What is seen of a transmission while some of its transactions are selected.

ghost use Rattle.std.specs.Prelude.{◌≡◌, ◌∷◌, ◌++◌, [], List, false, if◌then◌else◌};
ghost use Rattle.cwr_tools.specs.Format.Watching.{AreFindingsIn};
ghost use Rattle.cwr_values.specs.declared.items.Item.{Item};
ghost use Rattle.cwr_transform.specs.Format.Missing.{is_created_at};
ghost use Rattle.cwr_transform.specs.Steps.SelectViews.{HasSeenFindings, has_seen};
ghost use Rattle.cwr_transform.specs.Steps.Sought.{HasNoted, lacks_memory, numbers_sought, places_sought};

use crate::sought::Sought;
use cwr_fields::{Cell, is_spaces};
use cwr_findings::cell;
use cwr_lines::ControlRecord;
use cwr_moments::Moment;
use cwr_select::{Chooses, SelectViewer};
use cwr_tools::{FindingView, Viewer};
use cwr_values::{Item, Transaction};
use std::alloc::Global;

/// HDR: creation date and creation time.
const CREATION_DATE: u8 = 6;

const CREATION_TIME: u8 = 7;

/// GRT: currency indicator and total monetary value.
const CURRENCY: u8 = 5;

const TOTAL: u8 = 6;

/// The groups whose trailers lose a currency or a total.
#[derive(Drop)]
pub(crate) struct Blanked {
    /// How many transactions of the group are chosen so far.
    chosen: u32,
    /// The places of such groups.
    pub(crate) groups: Vec<u32>,
    /// Memory for these was refused.
    lacks_memory: bool,
}

impl Blanked {
    /// A transaction is chosen, or isn't.
    fn count(&mut self, is_chosen: bool) {
        self.chosen = self.chosen.saturating_add(u32::from(is_chosen));
    }

    /// Notes where a trailer is lost in part: where some transactions of its group are chosen, and others aren't. The group has that place,
    /// and so many transactions.
    fn end_group(&mut self, group: u32, transactions: u32, foot: &ControlRecord) {
        let is_cut = self.chosen > 0 && self.chosen < transactions;
        if is_cut && has_total(foot) && self.groups.push(group).is_err() {
            self.lacks_memory = true;
        }
    }
}

/// The findings in the transactions that are chosen, what is found of what is sought, and what is lost of the groups' trailers.
#[derive(Drop)]
pub(crate) struct SelectView<'a, C> {
    choice: &'a C,
    /// The moment that isn't to be that of the input.
    created: Option<Moment>,
    pub(crate) findings: FindingView,
    pub(crate) sought: Sought<'a>,
    /// The place of the group, from 1.
    group: u32,
    /// How many transactions it has so far.
    transactions: u32,
    pub(crate) blanked: Blanked,
    /// The input was created at that moment.
    pub(crate) is_same_moment: bool,
}

/// Whether HDR's creation date and time are that moment, where one is given.
fn is_created_at(created: Option<Moment>, opening: &ControlRecord) -> bool
    ensures { result ≡ is_created_at created opening.now }
{
    let Some(moment) = created else {
        return false;
    };
    let mut day = [b' '; 8];
    moment.date.write(&mut day);
    let mut time = [b' '; 6];
    moment.time.write(&mut time);
    let shown = opening.view();
    cell(&shown, CREATION_DATE) == day.as_slice() && cell(&shown, CREATION_TIME) == time.as_slice()
}

/// Whether GRT has a currency or a total.
fn has_total(foot: &ControlRecord) -> bool {
    let shown = foot.view();
    !is_spaces(cell(&shown, CURRENCY)) || !is_spaces(cell(&shown, TOTAL))
}

/// Counts the findings in a transaction where it is chosen.
fn see_where_chosen(findings: &mut FindingView, is_chosen: bool, item: &Item)
    ensures { (items : List Item) → HasSeenFindings items findings.old
        → HasSeenFindings (items ++ (if is_chosen then item.now ∷ [] else [])) findings.new }
{
    if is_chosen {
        findings.see(item);
    }
}

impl<'a, C: Chooses> SelectView<'a, C> {
    /// Before the first item.
    pub(crate) fn new(
        alloc: Global,
        choice: &'a C,
        created: Option<Moment>,
        sought: Sought<'a>,
    ) -> SelectView<'a, C>
        requires { HasNoted (numbers_sought sought) (places_sought sought) 0 0 [] sought }
        ensures choice { result.choice ≡ choice.entry }
        ensures created { result.created ≡ created }
        ensures sought { result.sought ≡ sought.entry }
        ensures seen { has_seen C.choice result result [] }
    {
        SelectView {
            choice,
            created,
            findings: FindingView::new(alloc),
            sought,
            group: 0,
            transactions: 0,
            blanked: Blanked {
                chosen: 0,
                groups: Vec::new(alloc),
                lacks_memory: false,
            },
            is_same_moment: false,
        }
    }

    /// Whether memory was refused for what is seen.
    pub(crate) fn lacks_memory(&self) -> bool
        ensures findings { result ≡ false → self.now.findings.lacks_memory ≡ false }
        ensures sought { result ≡ false → lacks_memory self.now.sought ≡ false }
    {
        self.findings.lacks_memory || self.blanked.lacks_memory || self.sought.lacks_memory()
    }

    /// Sees a transaction: what is sought of it, and where it is chosen its findings.
    fn take(&mut self, item: &Item, transaction: &Transaction)
        requires { item.now ≡ Item.Transaction transaction.now }
        ensures { (first : SelectView C) (items : List Item) → has_seen C.choice first self.old items
            → has_seen C.choice first self.new (items ++ item.now ∷ []) }
    {
        self.sought.take(self.group, self.transactions, transaction);
        let is_chosen = self
            .choice
            .chooses(self.group, self.transactions, transaction);
        self.blanked.count(is_chosen);
        see_where_chosen(&mut self.findings, is_chosen, item);
        self.transactions = self.transactions.saturating_add(1);
    }

    /// Sees that a group opens.
    fn open_group(&mut self, head: &ControlRecord)
        ensures { (first : SelectView C) (items : List Item) → has_seen C.choice first self.old items
            → has_seen C.choice first self.new (items ++ Item.GroupOpened head.now ∷ []) }
    {
        self.group = self.group.saturating_add(1);
        self.transactions = 0;
        self.blanked.chosen = 0;
        self.sought.open_group();
    }
}

impl<C: Chooses> SelectViewer for SelectView<'_, C> {
    ghost use Rattle.cwr_transform.specs.Steps.SelectViews.{has_seen};

    ghost has_seen = { λ first view items. has_seen C.choice first view items };

    fn see(&mut self, item: &Item) {
        match item {
            Item::Opened(opening) => {
                let is_same = is_created_at(self.created, opening);
                self.is_same_moment = self.is_same_moment || is_same;
            }
            Item::GroupOpened(head) => self.open_group(head),
            Item::Transaction(transaction) => self.take(item, transaction),
            Item::GroupClosed(foot) => self.blanked.end_group(self.group, self.transactions, foot),
            Item::Ended => {}
        }
    }
}
