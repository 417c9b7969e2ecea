//! The fields of a record.
ghost use Rattle.std.specs.Prelude.{◌≡◌, [], bytes_eq, codes, decimal, get_or};
ghost use Rattle.csv.specs.Records.{fields_of};

use col_csv_fields::is_row_number;
use csv::ByteRecord;

/// The field at a place; an empty one where there is none.
#[inline]
pub(crate) fn field_at(fields: &ByteRecord, place: usize) -> &[u8]
    ensures { result.now ≡ get_or (fields_of fields.now) place [] }
{
    match fields.get(place) {
        Some(field) => field,
        None => &[],
    }
}

/// Whether the first field is the number of a row.
pub(crate) fn is_row_number_at(fields: &ByteRecord, row: u32) -> bool
    ensures { result ≡ bytes_eq (get_or (fields_of fields.now) 0 []) (decimal row) }
{
    is_row_number(field_at(fields, 0), row)
}

/// Whether the first field is the mark of the first record.
pub(crate) fn is_marked(fields: &ByteRecord) -> bool
    ensures { result ≡ bytes_eq (get_or (fields_of fields.now) 0 []) (codes "#") }
{
    field_at(fields, 0) == b"#".as_slice()
}
