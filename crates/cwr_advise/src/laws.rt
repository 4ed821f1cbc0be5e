//! Laws over what is told of advice, as the contracts of functions without parameters.

ghost use Rattle.cwr_advise.specs.Format.Laws.{AllAreTold, FirstAreTold};
ghost use Rattle.cwr_advise.specs.Steps.AdviceCounts.{CountsAreCounted, CountsAreSummed, CountsTell};

/// Where not all advice is told, the first three pieces of each rule are.
pub fn first_three_are_told()
    ensures first { FirstAreTold }
    ensures all { AllAreTold }
{}

/// The counts of advice stand for it: by them the same is told of advice that comes after it, they grow as it does, and the same is summed
/// up.
pub fn counts_stand_for_advice()
    ensures told { CountsTell }
    ensures counted { CountsAreCounted }
    ensures summed { CountsAreSummed }
{}
