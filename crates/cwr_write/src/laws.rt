//! Laws of both directions, as the contracts of functions without parameters.

ghost use Rattle.cwr_write.specs.Format.Laws.{OneTransmission, OwnLines};

/// What `json` writes of a transmission is data of it. So `write` of that makes its canonical text.
pub fn own_lines_are_data()
    ensures { OwnLines }
{}

/// Lines are data of one transmission at most.
pub fn lines_are_of_one_transmission()
    ensures { OneTransmission }
{}
