//! The entries whose columns are to be opened.
ghost use Rattle.std.specs.Prelude.{◌≡◌, length, map, IfOk};
ghost use Rattle.col_file.specs.Handles.{listed};
ghost use Rattle.col_opened.specs.Chosen.{chosen, places_from};
ghost use Rattle.col_opened.specs.Opened.{seen_listed};

use col_common::FileHandle;
use col_file::{ColumnarReader, DynamicColumnHandle};
use std::alloc::{AllocError, Global};

// Where the column of each entry will stand among those that are opened.
pub(crate) fn places_of(alloc: Global, wanted: &[bool]) -> Result<Vec<Option<usize>>, AllocError>
    ensures { IfOk result (λ places. places.items ≡ places_from 0 wanted.now) }
{
    let mut places = Vec::with_capacity(alloc, wanted.len())?;
    let mut next = 0;
    for is_wanted in wanted {
        if *is_wanted {
            places.push(Some(next))?;
            next += 1;
        } else {
            places.push(None)?;
        }
    }
    Ok(places)
}

// The entries whose flag is set, each with its name and its handle.
pub(crate) fn wanted_entries<F: FileHandle>(
    alloc: Global,
    reader: &ColumnarReader<F>,
    wanted: &[bool],
) -> Result<Vec<(String, DynamicColumnHandle)>, AllocError>
    requires { length wanted.now ≡ length reader.now.keys.entries }
    ensures { IfOk result (λ found. map seen_listed found.items
        ≡ map listed (chosen wanted.now reader.now.keys.entries)) }
{
    let mut found = Vec::new(alloc);
    let mut place = 0;
    for (name, handle) in reader.iter_columns() {
        if wanted[place] {
            let name = String::from_str(alloc, name)?;
            found.push((name, handle))?;
        }
        place += 1;
    }
    Ok(found)
}
