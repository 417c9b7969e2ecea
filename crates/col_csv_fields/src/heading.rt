//! Headings of the first record: a type, a colon and a name.
ghost use Rattle.std.specs.Prelude.{◌≡◌, ◌<◌, ◌==◌, length, position, option_map, IfSome};
ghost use Rattle.col_program.specs.Values.{type_named};
ghost use Rattle.col_types.specs.Kinds.{kind_of};
ghost use Rattle.col_csv.specs.Csv.{colon};
ghost use Rattle.col_csv.specs.CsvTable.{key_of_heading};
ghost use Rattle.col_csv_fields.specs.Fields.{parts_at_colon, spelled_key};

use col_keys::name_of;
use col_questions::type_named;
use col_types::ColumnType;

/// The type and the name that a heading of the first record spells.
pub fn key_spelled(heading: &[u8]) -> Option<(ColumnType, &str)>
    ensures { option_map (λ r. spelled_key (r.0, r.1.now)) result ≡ key_of_heading heading.now }
{
    let (word, name) = split_at_colon(heading)?;
    let column_type = type_of(word)?;
    let name = name_of(name)?;
    Some((column_type, name))
}

// What stands in front of the first colon, and what behind it.
fn split_at_colon(heading: &[u8]) -> Option<(&[u8], &[u8])>
    ensures { option_map (λ r. (r.0.now, r.1.now)) result
        ≡ parts_at_colon heading.now }
{
    let end = place_of_colon(heading)?;
    Some((&heading[..end], &heading[end + 1..]))
}

fn place_of_colon(heading: &[u8]) -> Option<usize>
    ensures place { result ≡ position (λ b. b == colon) heading.now }
    ensures within { IfSome result (λ i. i < length heading.now) }
{
    heading.iter().position(|byte| *byte == b':')
}

// The type of this name.
fn type_of(word: &[u8]) -> Option<ColumnType>
    ensures { option_map kind_of result ≡ type_named word.now }
{
    match str::from_utf8(word) {
        Ok(word) => type_named(word),
        Err(_) => None,
    }
}
