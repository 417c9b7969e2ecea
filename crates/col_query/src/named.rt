//! The entries of a file that a query names.
ghost use Rattle.std.specs.Prelude.{◌≡◌, [], option_and_then, is_some, slice_get, IfOk};
ghost use Rattle.std.specs.List.{find};
ghost use Rattle.col_query.specs.Named.{names_entry, marked, AreMarks};

use col_common::FileHandle;
use col_file::ColumnarReader;
use col_questions::Step;
use std::alloc::{AllocError, Global};

// Which entries of a file some step names.
pub(crate) fn named_entries<F: FileHandle>(
    alloc: Global,
    reader: &ColumnarReader<F>,
    steps: &[Step],
) -> Result<Vec<bool>, AllocError>
    ensures { IfOk result (λ named. AreMarks steps.now reader.now.keys.entries named.items) }
{
    let mut named = vec![in alloc; false; reader.num_columns()]?;
    mark_all(reader, steps, &mut named);
    Ok(named)
}

// Marks the entries that some step names.
fn mark_all<F: FileHandle>(reader: &ColumnarReader<F>, steps: &[Step], named: &mut [bool])
    requires { AreMarks [] reader.now.keys.entries named.old }
    ensures { AreMarks steps.now reader.now.keys.entries named.new }
{
    for step in steps {
        mark(place_named(reader, step), named);
    }
}

// Marks the entry at a place, where there is one.
fn mark(place: Option<usize>, named: &mut [bool])
    ensures { named.new ≡ marked place named.old }
{
    if let Some(at) = place {
        if at < named.len() {
            named[at] = true;
        }
    }
}

// The place of the entry that a step names, where the file has one.
fn place_named<F: FileHandle>(reader: &ColumnarReader<F>, step: &Step) -> Option<usize>
    ensures place { option_and_then (slice_get reader.now.keys.entries) result
        ≡ find (names_entry step.now) reader.now.keys.entries }
    ensures some { is_some result ≡ is_some (find (names_entry step.now) reader.now.keys.entries) }
{
    match step {
        Step::Has { name, column_type } => reader.column_place(name, *column_type),
        Step::Range {
            name,
            column_type,
            ..
        } => reader.column_place(name, *column_type),
        Step::All | Step::Not | Step::Begin(_) | Step::Join(_) => None,
    }
}
