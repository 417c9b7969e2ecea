//! The inputs of a run, and files in memory, as open files.
ghost use Rattle.std.specs.Prelude.{◌≡◌, ◌≤◌, ◌+◌, [], ◌∷◌, length, reverse, vec_len, vec_capacity, IfOk};
ghost use Rattle.std.specs.List.{AllByRecursion};
ghost use Rattle.col_outcome.specs.Inputs.{IsOpenedFrom, OpensFiles, OpensInputs};
ghost use Rattle.col_outcome.specs.Parts.{files_in, given_in, handed_in, all_files, seen_as_part, IsUnfailed};

use crate::in_memory::in_memory_alone;
use crate::part::{Part, hand_back_one};
use bytes::Bytes;
use col_common::{ColumnarError, FileHandle, MemHandle};
use col_file::ColumnarReader;
use std::alloc::{AllocError, Global};

/// A file in memory that is open.
pub type Reader = ColumnarReader<MemHandle>;

/// Opens the inputs that are left, the last one first. It answers InvalidData where one is no
/// file; that one, and those behind it, are left then.
pub fn open_inputs<H: FileHandle>(
    alloc: Global,
    left: &mut Vec<H>,
    readers: &mut Vec<ColumnarReader<Part<H>>>,
) -> Result<(), ColumnarError>
    requires none { readers.old.items ≡ [] }
    requires room { vec_len left.old ≤ vec_capacity readers.old }
    ensures opens { OpensInputs (handed_in H.seen (reverse left.old.items)) result
        readers.new.items (all_files H.seen readers.new.items left.new.items) }
    ensures len { IfOk result (λ _. vec_len left.new ≡ 0) }
    ensures left_room { vec_capacity left.new ≡ vec_capacity left.old }
    ensures room { vec_capacity readers.new ≡ vec_capacity readers.old }
{
    while let Some(input) = left.pop() {
        match ColumnarReader::open(alloc, Part::Given(input)) {
            Ok(reader) => readers.push_reserved(reader),
            Err((file, error)) => {
                hand_back_one(file, left);
                return Err(error);
            }
        }
    }
    Ok(())
}

/// Opens files that were made.
pub fn open_files<H: FileHandle>(
    alloc: Global,
    files: &[Bytes],
    readers: &mut Vec<ColumnarReader<Part<H>>>,
) -> Result<(), AllocError>
    requires { vec_len readers.old + length files.now ≤ vec_capacity readers.old }
    ensures opened { IfOk result (λ _. OpensFiles files.now readers.old.items readers.new.items) }
    ensures given { given_in (files_in readers.new.items) ≡ given_in (files_in readers.old.items) }
{
    for place in 0..files.len() {
        let file = Part::Made(MemHandle::new(files[place].clone()?, Vec::new(alloc)));
        match ColumnarReader::open(alloc, file) {
            Ok(reader) => readers.push_reserved(reader),
            // What was written is a file, so that memory alone is wanting.
            Err((file, _)) => {
                let_go(file);
                return Err(AllocError);
            }
        }
    }
    Ok(())
}

// Lets a made file go.
fn let_go<H: FileHandle>(file: Part<H>)
    requires { given_in (seen_as_part H.seen file ∷ []) ≡ [] }
{
    match file {
        Part::Given(_) => unreachable!(),
        Part::Made(file) => drop(file),
    }
}

/// Takes readers apart, and puts the files that were handed in back, in their order, in front of
/// those that are left.
pub fn hand_back<H: FileHandle>(readers: Vec<ColumnarReader<Part<H>>>, left: &mut Vec<H>)
    requires { length (given_in (files_in readers.items)) + vec_len left.old
        ≤ vec_capacity left.old }
    ensures handed { handed_in H.seen left.new.items
        ≡ all_files H.seen readers.items left.old.items }
    ensures unfailed { AllByRecursion IsUnfailed (files_in readers.items) }
{
    let mut readers = readers;
    while let Some(reader) = readers.pop() {
        hand_back_one(reader.into_file(), left);
    }
    readers.destroy_empty();
    left.reverse();
}

/// Opens a file in memory.
pub fn open_file(alloc: Global, bytes: Bytes) -> Result<Reader, ColumnarError>
    ensures { IsOpenedFrom bytes result }
{
    let file = MemHandle::new(bytes, Vec::new(alloc));
    match ColumnarReader::open(alloc, file) {
        Ok(reader) => Ok(reader),
        Err((_, error)) => Err(in_memory_alone(error)),
    }
}
