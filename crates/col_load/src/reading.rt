//! Lines of a source, which is read by blocks.
ghost use Rattle.std.specs.Prelude.{◌≡◌, ◌<◌, ◌≤◌, [], length, take, IfErr, IfOk};
ghost use Rattle.col_common.specs.Outside.{Takes, IsAtEnd};
ghost use Rattle.col_load.specs.Loading.{HasTaken, ReadsLines, RefusesRead, TakesSource};

use crate::lines::take_block;
use crate::load_error::LoadError;
use crate::loader::Loader;
use col_common::{ColumnarError, HandleError, Source};
use std::alloc::Global;

// How many bytes a read asks for at most.
const BLOCK_LEN: usize = 65_536;

// Takes all lines of a source.
pub(crate) fn take_source<S: Source>(
    alloc: Global,
    loader: &mut Loader<'_>,
    source: &mut S,
) -> Result<(), LoadError>
    requires { HasTaken [] loader.old }
    ensures { TakesSource (S.left source.old) (S.left source.new)
        (S.faults source.old) (S.faults source.new) loader.old loader.new result }
{
    let mut buffer = vec![in alloc; 0; BLOCK_LEN]?;
    let last = take_blocks(alloc, loader, source, &mut buffer)?;
    loader.take_line(alloc, last.as_slice())
}

// Takes the lines of a source up to its last line feed, and gives what stands behind that.
fn take_blocks<S: Source>(
    alloc: Global,
    loader: &mut Loader<'_>,
    source: &mut S,
    buffer: &mut [u8],
) -> Result<Vec<u8>, LoadError>
    requires buffer { 0 < length buffer.old }
    requires none { HasTaken [] loader.old }
    ensures { ReadsLines (S.left source.old) (S.left source.new)
        (S.faults source.old) (S.faults source.new) loader.old loader.new result }
{
    let mut held = Vec::new(alloc);
    'reads: loop {
        let count = read_block(source, buffer)?;
        if count == 0 {
            return Ok(held);
        }
        take_block(alloc, loader, &mut held, &buffer[..count])?;
    }
}

// Reads a block to the front of a buffer, of no bytes at the end.
fn read_block<S: Source>(source: &mut S, buffer: &mut [u8]) -> Result<usize, LoadError>
    requires { 0 < length buffer.old }
    ensures within { IfOk result (λ n. n ≤ length buffer.new) }
    ensures taken { IfOk result (λ n.
        Takes (S.left source.old) (S.left source.new) (take n buffer.new)) }
    ensures ended { IfOk result (λ n. n ≡ 0 → IsAtEnd (S.left source.new)) }
    ensures failed { IfErr result (λ e. RefusesRead (S.left source.old) (S.left source.new)
        (S.faults source.old) (S.faults source.new) e) }
    ensures later { S.faults source.old ≤ S.faults source.new }
{
    match source.read(buffer) {
        Ok(count) => Ok(count),
        Err(HandleError::Failed) => Err(LoadError::Columnar(ColumnarError::ReadFault)),
        Err(HandleError::Memory) => Err(LoadError::OutOfMemory),
    }
}
