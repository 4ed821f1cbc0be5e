//! Laws of the form, as the contracts of functions without parameters.

ghost use Rattle.cwr_json.specs.Format.Laws.{BytesReadBack, LinesReadBack, OneData, OneText, OwnData};

/// The characters that bytes are shown as stand for these bytes, in each encoding.
pub fn bytes_read_back()
    ensures { BytesReadBack }
{}

/// Characters stand for one list of bytes at most.
pub fn characters_are_of_one_text()
    ensures { OneText }
{}

/// The line of an item is JSON, and reads back as the item's data.
pub fn lines_read_back()
    ensures { LinesReadBack }
{}

/// The data of an item is that of its records, with notes or without.
pub fn items_have_own_data()
    ensures { OwnData }
{}

/// Data is that of no other records: a line stands for one item at most.
pub fn data_is_of_one_item()
    ensures { OneData }
{}
