//! Laws over what is selected, as the contracts of functions without parameters.

ghost use Rattle.cwr_select.specs.Format.Laws.{AllIsSelected, ChosenAreSelected, OthersAreTheRest, SelectionIsAccepted, TwiceIsOnce};

/// What is selected of a transmission and sent with any changes is one, within any limits that the whole is within, and its canonical text is
/// accepted.
pub fn selection_is_accepted()
    ensures { SelectionIsAccepted }
{}

/// What is selected of a transmission has just the transactions that are chosen, in their order, each under the GRH that it had. With
/// those that aren't chosen these are all.
pub fn chosen_are_selected()
    ensures chosen { ChosenAreSelected }
    ensures others { OthersAreTheRest }
{}

/// Where all transactions are chosen, all is selected. So it is where a choice that doesn't look at places selects once more.
pub fn all_is_selected()
    ensures all { AllIsSelected }
    ensures twice { TwiceIsOnce }
{}
