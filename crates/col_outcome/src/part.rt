//! Files of a run: those that were handed in, and those that were made.
ghost use Rattle.std.specs.Prelude.{◌≡◌, ◌≤◌, ◌+◌, [], ◌∷◌, ◌++◌, length, reverse, vec_len, vec_capacity};
ghost use Rattle.col_outcome.specs.Parts.{given_in, handed_in, seen_as_part, IsUnfailed};

use bytes::Bytes;
use col_common::{FileHandle, HandleError, MemHandle};
use std::alloc::Global;

/// A file that was handed in, or one that was made in memory. Its mark tells which: it is 0 of a
/// made one alone.
#[derive(Drop)]
pub enum Part<H> {
    Given(H),
    Made(MemHandle),
}

impl<H: FileHandle> FileHandle for Part<H> {
    ghost use Rattle.std.specs.Prelude.{◌≤◌};
    ghost use Rattle.col_common.specs.Outside.{ReadCuts};
    ghost use Rattle.col_outcome.specs.Parts.{seen_as_part, part_told_whole};

    ghost seen = { seen_as_part H.seen };

    ghost told_whole = { part_told_whole H.seen H.told_whole };

    fn len(&self) -> u64 {
        match self {
            Part::Given(file) => file.len(),
            Part::Made(file) => file.len(),
        }
    }

    fn read(&mut self, alloc: Global, start: u64, end: u64) -> Result<Bytes, HandleError> {
        match self {
            Part::Given(file) => file.read(alloc, start, end),
            Part::Made(file) => match file.read(alloc, start, end) {
                Ok(bytes) => Ok(bytes),
                // Bytes in memory refuse for want of memory alone.
                Err(_) => Err(HandleError::Memory),
            },
        }
    }
}

/// Puts a file that was handed in behind those that are handed back; a made one is let go.
pub(crate) fn hand_back_one<H: FileHandle>(file: Part<H>, left: &mut Vec<H>)
    requires { length (given_in (seen_as_part H.seen file ∷ []))
        + vec_len left.old ≤ vec_capacity left.old }
    ensures handed { handed_in H.seen (reverse left.new.items)
        ≡ given_in (seen_as_part H.seen file ∷ [])
        ++ handed_in H.seen (reverse left.old.items) }
    ensures len { vec_len left.new
        ≡ length (given_in (seen_as_part H.seen file ∷ []))
        + vec_len left.old }
    ensures capacity { vec_capacity left.new ≡ vec_capacity left.old }
    ensures unfailed { IsUnfailed (seen_as_part H.seen file) }
{
    match file {
        Part::Given(file) => left.push_reserved(file),
        Part::Made(file) => drop(file),
    }
}
