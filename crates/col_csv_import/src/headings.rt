//! Reads the first record: the types and the names of columns.
ghost use Rattle.std.specs.Prelude.{◌≡◌, map, drop, option_map, true};
ghost use Rattle.std.specs.List.{list_all};
ghost use Rattle.csv.specs.Records.{fields_of};
ghost use Rattle.col_csv.specs.CsvTable.{key_of_heading, keys_of_header};
ghost use Rattle.col_csv_import.specs.Columns.{no_values};
ghost use Rattle.col_csv_import.specs.Headings.{heading_key};
ghost use Rattle.col_csv_import.specs.Made.{Makes};
ghost use Rattle.col_model.specs.Category.{category_of, category_place};
ghost use Rattle.col_model.specs.File.{for_each};
ghost use Rattle.col_model.specs.Keys.{are_keys, is_name};
ghost use Rattle.col_types.specs.Kinds.{kind_of};

use crate::field_texts::{field_at, is_marked};
use crate::import_column::{ImportColumn, columns_of};
use col_csv::CsvError;
use col_csv_fields::key_spelled;
use col_types::ColumnType;
use csv::ByteRecord;
use std::alloc::Global;

/// The type and the name of a column.
#[derive(Clone, Copy)]
pub(crate) struct Heading<'a> {
    pub(crate) column_type: ColumnType,
    pub(crate) name: &'a str,
}

impl Heading<'_> {
    ghost use Rattle.std.specs.Ordering.{is_lt};
    ghost use Rattle.col_model.specs.Category.{slot_cmp};
    ghost use Rattle.col_csv_import.specs.Headings.{heading_slot};

    // Whether its slot stands before that of another one.
    fn is_before(&self, other: &Heading<'_>) -> bool
        ensures { result ≡ is_lt (slot_cmp (heading_slot self.now) (heading_slot other.now)) }
    {
        let by_name = self.name.cmp(other.name);
        let by_place = place_of(self.column_type).cmp(&place_of(other.column_type));
        by_name.then(by_place).is_lt()
    }
}

// The place of a type's category among the categories.
fn place_of(column_type: ColumnType) -> u8
    ensures { result ≡ category_place (category_of (kind_of column_type)) }
{
    match column_type {
        ColumnType::I64 | ColumnType::U64 => 0,
        ColumnType::Bytes => 1,
        ColumnType::Str => 2,
        ColumnType::Bool => 3,
        ColumnType::IpAddr => 4,
        ColumnType::DateTime => 5,
    }
}

/// The columns of the first record, without values.
pub(crate) fn take_header(alloc: Global, fields: &ByteRecord) -> Result<Vec<ImportColumn>, CsvError>
    ensures { Makes (λ v. v.items) result
        (option_map (map no_values) (keys_of_header (fields_of fields.now))) }
{
    if !is_marked(fields) {
        return Err(CsvError::BadCsv);
    }
    let headings = headings_of(alloc, fields)?;
    if !are_keys(&headings) {
        return Err(CsvError::BadCsv);
    }
    Ok(columns_of(alloc, &headings)?)
}

// What the fields behind the mark spell.
fn headings_of(alloc: Global, fields: &ByteRecord) -> Result<Vec<Heading<'_>>, CsvError>
    ensures { Makes (λ v. map heading_key v.items) result
        (for_each key_of_heading (drop 1 (fields_of fields.now))) }
{
    let mut headings = Vec::new(alloc);
    for place in 1..fields.len() {
        let Some((column_type, name)) = key_spelled(field_at(fields, place)) else {
            return Err(CsvError::BadCsv);
        };
        if headings.push(Heading { column_type, name }).is_err() {
            return Err(CsvError::OutOfMemory);
        }
    }
    Ok(headings)
}

// Whether columns of these types and names may stand in a file in this order.
fn are_keys(headings: &[Heading<'_>]) -> bool
    requires { list_all (λ h. is_name (heading_key h).name) headings.now ≡ true }
    ensures { result ≡ are_keys (map heading_key headings.now) }
{
    for place in 1..headings.len() {
        if !headings[place - 1].is_before(&headings[place]) {
            return false;
        }
    }
    true
}
