//! Lines of blocks that stand one behind another.
ghost use Rattle.std.specs.Prelude.{◌≡◌, [], ◌++◌, IfErr, IfOk, OnOk};
ghost use Rattle.col_load.specs.Loading.{IsCut, IsOpen, LinesTaken, StopsIn, TakesLine};

use crate::load_error::LoadError;
use crate::loader::Loader;
use memchr::memchr;
use std::alloc::Global;

// Takes the lines that end in a block, of which the first was begun by what is held, and holds the
// one that doesn't end.
pub(crate) fn take_block(
    alloc: Global,
    loader: &mut Loader<'_>,
    held: &mut Vec<u8>,
    block: &[u8],
) -> Result<(), LoadError>
    requires { IsOpen held.old.items }
    ensures taken { OnOk result (LinesTaken (held.old.items ++ block.now) held.new.items
        loader.old loader.new) }
    ensures stopped { IfErr result (StopsIn (held.old.items ++ block.now) loader.old) }
{
    let Some((ending, behind)) = cut_line(block) else {
        held.extend_from_slice(block)?;
        return Ok(());
    };
    take_begun(alloc, loader, held, ending)?;
    let begun = take_whole_lines(alloc, loader, behind)?;
    held.extend_from_slice(begun)?;
    Ok(())
}

// Takes a line of which the first bytes are held. One that stands whole in its block isn't copied.
fn take_begun(
    alloc: Global,
    loader: &mut Loader<'_>,
    held: &mut Vec<u8>,
    ending: &[u8],
) -> Result<(), LoadError>
    ensures line { TakesLine (held.old.items ++ ending.now) loader.old loader.new result }
    ensures cleared { OnOk result (held.new.items ≡ []) }
{
    if held.is_empty() {
        return loader.take_line(alloc, ending);
    }
    held.extend_from_slice(ending)?;
    loader.take_line(alloc, held.as_slice())?;
    held.clear();
    Ok(())
}

// Takes the lines that end in the bytes, and gives the one that doesn't end.
fn take_whole_lines<'b>(
    alloc: Global,
    loader: &mut Loader<'_>,
    bytes: &'b [u8],
) -> Result<&'b [u8], LoadError>
    ensures taken { IfOk result (λ left. LinesTaken bytes.now left.now loader.old loader.new) }
    ensures stopped { IfErr result (StopsIn bytes.now loader.old) }
{
    let mut left = bytes;
    'lines: while let Some((line, behind)) = cut_line(left) {
        loader.take_line(alloc, line)?;
        left = behind;
    }
    Ok(left)
}

// The bytes before the first line feed and those behind it, if there is one.
fn cut_line(bytes: &[u8]) -> Option<(&[u8], &[u8])>
    ensures { IsCut bytes.now result }
{
    match memchr(b'\n', bytes) {
        Some(end) => Some((&bytes[..end], &bytes[end + 1..])),
        None => None,
    }
}
