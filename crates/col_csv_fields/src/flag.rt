//! Flags.
ghost use Rattle.std.specs.Prelude.{◌≡◌, option_map};
ghost use Rattle.col_model.specs.ColumnType as types;
ghost use Rattle.col_types.specs.Cells.{bool_cell};
ghost use Rattle.col_csv.specs.CsvTable.{value_of_text};

/// The flag that a text names.
pub fn flag_spelled(text: &[u8]) -> Option<bool>
    ensures { option_map bool_cell result ≡ value_of_text types.bool text.now }
{
    match text {
        b"true" => Some(true),
        b"false" => Some(false),
        _ => None,
    }
}
