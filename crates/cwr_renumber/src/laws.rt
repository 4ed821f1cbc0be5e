//! What putting numbers right does to a text.

ghost use Rattle.cwr_renumber.specs.Steps.Laws.{NumbersArePutRight};

/// Where a text's first lines carry the records of a transmission within the limits, whatever stands in their derived cells, the text
/// is accepted as that one once its numbers are put right. The text may end with the last of these lines, and lack its line feed. A
/// transmission has at most as many records as its trailer can count.
pub fn numbers_are_put_right()
    ensures { NumbersArePutRight }
{}
