//! What a selection holds between two items.

ghost use Rattle.std.specs.Prelude.{◌≡◌, Some};
ghost use Rattle.cwr_select.specs.Steps.Held.{HasRoom, entered, none_held, with_left_out, with_selected};

use crate::reports::SelectReport;
use cwr_values::Item;

/// What a selection holds between two items.
#[derive(Drop)]
pub(crate) struct Held {
    /// HDR, until it is written with the first transaction that is selected.
    pub(crate) opening: Option<Item>,
    /// The last GRH, until it is written with the first transaction of its group that is.
    pub(crate) head: Option<Item>,
    /// How many groups were opened.
    pub(crate) group: u32,
    /// How many transactions the last one has so far.
    pub(crate) transactions: u32,
    /// How many of these are selected.
    pub(crate) selected: u32,
    /// The numbers of all groups so far.
    pub(crate) report: SelectReport,
}

impl Held {
    /// Nothing was handed out.
    pub(crate) fn new() -> Held
        ensures { result ≡ none_held }
    {
        Held {
            opening: None,
            head: None,
            group: 0,
            transactions: 0,
            selected: 0,
            report: SelectReport {
                selected: 0,
                transactions: 0,
            },
        }
    }

    /// A group opens.
    pub(crate) fn enter(&mut self, head: Item)
        requires { HasRoom self.old }
        ensures { self.new ≡ entered self.old head }
    {
        self.head = Some(head);
        self.group += 1;
        self.transactions = 0;
        self.selected = 0;
    }

    /// A transaction is left out.
    pub(crate) fn leave_out(&mut self)
        requires { HasRoom self.old }
        ensures { self.new ≡ with_left_out self.old }
    {
        self.transactions += 1;
        self.report.transactions += 1;
    }

    /// A transaction was selected. What is held before it was written.
    pub(crate) fn count_selected(&mut self)
        requires room { HasRoom self.old }
        requires opening { self.old.opening ≡ None }
        requires head { self.old.head ≡ None }
        ensures { self.new ≡ with_selected self.old }
    {
        self.transactions += 1;
        self.selected += 1;
        self.report.transactions += 1;
        self.report.selected += 1;
    }
}
