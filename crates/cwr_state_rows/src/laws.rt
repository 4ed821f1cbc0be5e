//! Laws over the rows, as the contracts of functions without parameters.

ghost use Rattle.cwr_state_rows.specs.Format.Laws.{AnyOrderHasTheRows, AnyOrderOfFilesHasTheRows, EachHasItsRows};

/// Each transaction that wants an answer has a row for each sender that answers it, in which that answer stands which counts, or one row
/// where nobody does.
pub fn each_transaction_has_its_rows()
    ensures { EachHasItsRows }
{}

/// The table is the same in whatever order the acknowledgements were read, and so in whatever order the files, where no two answers by one
/// sender to one transaction were processed on one day.
pub fn any_order_has_the_rows()
    ensures acknowledgements { AnyOrderHasTheRows }
    ensures files { AnyOrderOfFilesHasTheRows }
{}
