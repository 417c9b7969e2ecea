//! Merges that are refused, and the readers behind them.
use crate::file::{TEN_AND_TWENTY, first_handle, last_of_two, opened};
use col_common::{ColumnarError, MemHandle, VecSink};
use col_dynamic::ColumnType;
use col_file::ColumnarReader;
use col_merge::merge_columnar;
use col_order::{MergeRowOrder, StackMergeOrder};
use std::alloc::{AllocError, Global};
use std::test::Fail;

// The name and the type of a required column.
type Required = (&'static str, ColumnType);

const ZERO: &[Required] = &[("a\0", ColumnType::U64)];

const TWO_TYPES: &[Required] = &[("a", ColumnType::U64), ("a", ColumnType::I64)];

// Merges of two files of two rows: the row counts of the order, the required columns, which read of
// the first file fails and which write, by their numbers from 0, and what it answers.
const MERGES: [(&[u32], &[Required], u64, u64, ColumnarError); 6] = [
    (&[2, 3], &[], 9, 9, ColumnarError::BadOrder),
    (&[2], &[], 9, 9, ColumnarError::BadOrder),
    (&[2, 2], ZERO, 9, 9, ColumnarError::BadName),
    (&[2, 2], TWO_TYPES, 9, 9, ColumnarError::RequiredConflict),
    (&[2, 2], &[], 2, 9, ColumnarError::ReadFault),
    (&[2, 2], &[], 9, 0, ColumnarError::WriteFault),
];

fn required_columns(
    alloc: Global,
    columns: &[Required],
) -> Result<Vec<(String, ColumnType)>, AllocError> {
    let mut required = Vec::new(alloc);
    for (name, column_type) in columns {
        required.push((String::from_str(alloc, name)?, *column_type))?;
    }
    Ok(required)
}

// What a merge of readers answers, of which the write of this number fails.
fn answer(
    alloc: Global,
    readers: &mut [ColumnarReader<MemHandle>],
    counts: &[u32],
    required: &[Required],
    failing_write: u64,
) -> Result<Result<(), ColumnarError>, ColumnarError> {
    let required = required_columns(alloc, required)?;
    let order = MergeRowOrder::from(StackMergeOrder::from_row_counts(alloc, counts)?);
    let mut output = VecSink::new(Vec::new(alloc), vec![in alloc; failing_write]?);
    Ok(merge_columnar(alloc, readers, &required, order, &mut output))
}

// Whether the last value of two rows, read anew, is 20 in each file.
fn are_read_anew(
    alloc: Global,
    readers: &mut [ColumnarReader<MemHandle>],
) -> Result<bool, ColumnarError> {
    for reader in readers {
        let handle = first_handle(reader)?;
        if last_of_two(&handle.open_u64_lenient(alloc, reader)?) != Some(20) {
            return Ok(false);
        }
    }
    Ok(true)
}

// What a merge answers, and whether each of its files is read anew behind it.
fn behind(
    alloc: Global,
    counts: &[u32],
    required: &[Required],
    failing_read: u64,
    failing_write: u64,
) -> Result<(Result<(), ColumnarError>, bool), ColumnarError> {
    let mut readers = [
        opened(alloc, TEN_AND_TWENTY, &[failing_read])?,
        opened(alloc, TEN_AND_TWENTY, &[])?,
    ];
    let refusal = answer(alloc, &mut readers, counts, required, failing_write)?;
    Ok((refusal, are_read_anew(alloc, &mut readers)?))
}

#[test]
fn readers_behind_a_refused_merge_open_their_columns(rt: HostRuntime) -> Result<(), Fail> {
    for (counts, required, failing_read, failing_write, refusal) in &MERGES {
        let found = behind(rt.alloc(), counts, required, *failing_read, *failing_write)?;
        assert_eq!(rt; found, (Err(*refusal), true));
    }
    Ok(())
}
