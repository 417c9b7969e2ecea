//! The kinds of columns, by the fields of all records.
ghost use Rattle.std.specs.Prelude.{◌≡◌, ◌<◌, List, ℕ, map, length, IfOk, OnOk};
ghost use Rattle.csv.specs.Records.{fields_of};
ghost use Rattle.col_load_csv.specs.Documents.{decided, decided_by, taken};
ghost use Rattle.col_load_csv.specs.Read.{column_read};
ghost use Rattle.col_load_csv.specs.Readers.{IsReading, left_of};
ghost use Rattle.col_load_csv.specs.Sights.{AddsSight, AreSeen, AreSeenByName, SeesFields, SeesRecord, sight_at, sight_under};

use crate::column::Column;
use crate::records::{field_at, read_next};
use crate::row::is_document;
use crate::seen::Seen;
use csv::{ByteRecord, Reader};
use std::alloc::{AllocError, Global};
use std::collections::BTreeMap;

/// The columns with the kinds that the fields of the records are of which a reader has left, no
/// more than `most`, where the records are documents.
pub(crate) fn decide(
    alloc: Global,
    columns: &[Column],
    reader: &mut Reader<&[u8]>,
    row: &mut ByteRecord,
    most: usize,
) -> Result<Vec<Column>, AllocError>
    requires { IsReading reader.old }
    ensures { IfOk result (λ kinds. map column_read kinds.items
        ≡ decided (map column_read columns.now) (left_of most reader.old)) }
{
    let seen = see_records(alloc, columns, reader, row, most)?;
    let sights = sights_by_name(alloc, columns, &seen)?;
    decided_columns(alloc, columns, &sights)
}

// What is seen of the fields of each column.
fn see_records(
    alloc: Global,
    columns: &[Column],
    reader: &mut Reader<&[u8]>,
    row: &mut ByteRecord,
    most: usize,
) -> Result<Vec<Seen>, AllocError>
    requires { IsReading reader.old }
    ensures length { IfOk result (λ seen. length seen.items ≡ length columns.now) }
    ensures seen { IfOk result (λ seen. AreSeen
        (taken (map column_read columns.now) (left_of most reader.old)) seen.items) }
{
    let mut seen = vec![in alloc; Seen::none(); columns.len()]?;
    for _ in 0..most {
        if !read_next(reader, row)? {
            return Ok(seen);
        }
        see_record(alloc, columns, row, &mut seen)?;
    }
    Ok(seen)
}

// What is seen of a record's fields, where it is a document.
fn see_record(
    alloc: Global,
    columns: &[Column],
    row: &ByteRecord,
    seen: &mut [Seen],
) -> Result<(), AllocError>
    ensures { OnOk result
        (SeesRecord (map column_read columns.now) (fields_of row.now) seen.old seen.new) }
{
    if is_document(alloc, columns, row)? {
        see_fields(row, seen);
    }
    Ok(())
}

// What is seen of a record's fields.
fn see_fields(row: &ByteRecord, seen: &mut [Seen])
    ensures { SeesFields (fields_of row.now) seen.old seen.new }
{
    for place in 0..seen.len() {
        let own = sight_of(seen, place);
        seen[place] = own.with_field(field_at(row, place));
    }
}

// What is seen of the column at a place.
fn sight_of(seen: &[Seen], place: usize) -> Seen
    requires { place < length seen.now }
    ensures { result ≡ sight_at seen.now place }
{
    seen[place]
}

// What is seen of all columns with a name, by their names.
fn sights_by_name(
    alloc: Global,
    columns: &[Column],
    seen: &[Seen],
) -> Result<BTreeMap<String, Seen>, AllocError>
    requires { length seen.now ≡ length columns.now }
    ensures { IfOk result (λ sights. (rows : List (List (List ℕ))) → AreSeen rows seen.now
        → AreSeenByName rows (map column_read columns.now) sights) }
{
    let mut sights = BTreeMap::new(alloc);
    for place in 0..columns.len() {
        let own = sight_of(seen, place);
        add_sight(alloc, &mut sights, columns[place].name.as_str(), own)?;
    }
    Ok(sights)
}

// Adds what is seen of a column to what is seen of those with its name.
fn add_sight(
    alloc: Global,
    sights: &mut BTreeMap<String, Seen>,
    name: &str,
    own: Seen,
) -> Result<(), AllocError>
    ensures { OnOk result (AddsSight name.now own sights.old sights.new) }
{
    let all = sight_under(sights, name).merged(own);
    let key = String::from_str(alloc, name)?;
    sights.insert(key, all)?;
    Ok(())
}

// What is seen of all columns with a name.
fn sight_under(sights: &BTreeMap<String, Seen>, name: &str) -> Seen
    ensures { result ≡ sight_under sights.now name.now }
{
    sights.get(name).copied().unwrap_or(Seen::none())
}

// The columns with the kinds that were seen.
fn decided_columns(
    alloc: Global,
    columns: &[Column],
    sights: &BTreeMap<String, Seen>,
) -> Result<Vec<Column>, AllocError>
    ensures { IfOk result (λ kinds. (rows : List (List (List ℕ)))
        → AreSeenByName rows (map column_read columns.now) sights.now
        → map column_read kinds.items
        ≡ map (λ c. decided_by (map column_read columns.now) rows (column_read c)) columns.now) }
{
    let mut kinds = Vec::new(alloc);
    for column in columns {
        kinds.push(Column {
            name: column.name.clone()?,
            form: column.form,
            kind: sight_under(sights, column.name.as_str()).kind(),
        })?;
    }
    Ok(kinds)
}
