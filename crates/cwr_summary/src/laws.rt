//! Laws of summaries, as the contracts of functions without parameters.

ghost use Rattle.cwr_summary.specs.Format.Laws.{JoinsAddUp, SplitsAddUp, SummariesAddUp};

/// What items add to a column is what the first of them and what the others add to it: so the numbers of a transmission are those of its
/// groups together, with HDR and TRL.
pub fn summaries_add_up()
    ensures { SummariesAddUp }
{}

/// What a join has in a column its inputs have there together, but HDR and TRL, of which it has one each.
pub fn joins_add_up()
    ensures { JoinsAddUp }
{}

/// What a transmission has in a column the parts of a split have there together, but HDR and TRL, of which each has one, and groups, which a
/// split may cut, with GRH and GRT.
pub fn splits_add_up()
    ensures { SplitsAddUp }
{}
