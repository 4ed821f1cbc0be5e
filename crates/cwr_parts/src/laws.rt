//! Laws over what a split tells, as the contracts of functions without parameters.

ghost use Rattle.cwr_parts.specs.Format.Laws.{AcceptedIsSplit, OneSplitIsTold, ToldIsRight};

/// What is told of a split is right of its text, and a text that is accepted is split whole, unless a device or memory failed.
pub fn text_is_split_as_told()
    ensures judged { ToldIsRight }
    ensures accepted { AcceptedIsSplit }
{}

/// Where a text is known, and how much of it was read, what is told of a split determines which outputs were handed over, unless a
/// writer or an output failed: all of an accepted text, and else those that the transactions fill which were handed out.
pub fn one_split_is_told()
    ensures { OneSplitIsTold }
{}
