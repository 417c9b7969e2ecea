//! Paths in the names of columns.
ghost use Rattle.std.specs.Prelude.{◌≡◌, ◌++◌, ◌∷◌, [], IfOk};
ghost use Rattle.col_file.specs.Handles.{separator};

use col_common::JSON_PATH_SEGMENT_SEP;
use std::alloc::{AllocError, Global};

// What names have in front that go on behind a path.
pub(crate) fn front_of_path(alloc: Global, path: &str) -> Result<Vec<u8>, AllocError>
    ensures { IfOk result (λ front. front.items ≡ path.now ++ separator ∷ []) }
{
    let mut front = Vec::with_capacity(alloc, path.len() + 1)?;
    front.extend_from_slice(path.as_bytes())?;
    front.push(JSON_PATH_SEGMENT_SEP)?;
    Ok(front)
}
