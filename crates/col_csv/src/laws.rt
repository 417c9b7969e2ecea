//! Laws of the texts of tables, each the contract of a call that does nothing.
ghost use Rattle.col_csv.specs.CsvTable.{TextsLeadBack, TextsAreExact, TextsAreSound};
ghost use Rattle.col_csv.specs.ReadBack.{TextsReadBack};

/// The kit's reader, at its defaults and with no header row, reads the text of a table as its
/// records.
pub fn texts_read_back()
    ensures { TextsReadBack }
{}

/// The text of a table that is flat and sound leads back to the table.
pub fn texts_lead_back()
    ensures { TextsLeadBack }
{}

/// The table of a text is flat, and the text's records are the table's own: no text has a table
/// in another form.
pub fn texts_are_exact()
    ensures { TextsAreExact }
{}

/// The table of a text that isn't too long is sound.
pub fn texts_are_sound()
    ensures { TextsAreSound }
{}
