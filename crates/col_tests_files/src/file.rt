//! Open files of bytes that were worked out by hand from the format's page, and their columns.
use bytes::Bytes;
use col_common::{ColumnarError, FileHandle, MemHandle};
use col_dynamic::{Column, ColumnSpaceUsage, ColumnType};
use col_dynamic_open::LenientColumn;
use col_file::{ColumnarReader, DynamicColumnHandle, check_columns, count_columns};
use col_values::ColumnValues;
use std::alloc::Global;
use std::test::Fail;

// The u64 column "a" of the rows 10 and 20.
pub(crate) const TEN_AND_TWENTY: &[u8] = b"\0\0\x8a\x8a\x81\x82\x02\x01\0\0\0\0\0\0\0\
\x81\x83a\0\x01\x8f\x06\0\0\0\0\0\0\0\x02\0\0\0\x03\0\0\0\x02qwB";

// The str column "s" of three rows without a value.
pub(crate) const THREE_WITHOUT: &[u8] = b"\0\0\0\0\x01\0\x83\0\x80\x81\x80\x80\0\x80\x81\x80\x80\
\x08\0\0\0\0\0\0\0\x04\0\0\0\x81\x83s\0\x04\x9d\x06\0\0\0\0\0\0\0\x03\0\0\0\x03\0\0\0\x02qwB";

// Four columns of 1 to 4 bytes, which aren't read: "col1" (str), "subcol1" (str) and "subcol2"
// (i64) below it, and "col2" (str).
const PATHS: &[u8] = b"\0\0\0\0\0\0\0\0\0\0\
\x84\x86col1\0\x04\x81\x8ecol1\x01subcol1\0\x04\x82\x8ecol1\x01subcol2\0\0\x83\x86col2\0\x04\x84\
\x31\0\0\0\0\0\0\0\0\0\0\0\x02\0\0\0\x02qwB";

// The reader of a file of these bytes, of which the reads with these numbers fail.
pub(crate) fn opened(
    alloc: Global,
    bytes: &'static [u8],
    failing: &[u64],
) -> Result<ColumnarReader<MemHandle>, ColumnarError> {
    let file = MemHandle::new(Bytes::from_static(bytes), failing.to_vec(alloc)?);
    match ColumnarReader::open(alloc, file) {
        Ok(reader) => Ok(reader),
        Err((file, error)) => {
            drop(file);
            Err(error)
        }
    }
}

// What is handed back with a refusal, where the reads with these numbers fail: the length of the
// file, and the refusal.
fn handed_back(
    alloc: Global,
    bytes: &'static [u8],
    failing: &[u64],
) -> Result<Option<(u64, ColumnarError)>, ColumnarError> {
    let file = MemHandle::new(Bytes::from_static(bytes), failing.to_vec(alloc)?);
    match ColumnarReader::open(alloc, file) {
        Ok(reader) => {
            drop(reader.into_file());
            Ok(None)
        }
        Err((file, error)) => Ok(Some((file.len(), error))),
    }
}

#[test]
fn a_file_is_read_twice_and_handed_back_with_a_fault(rt: HostRuntime) -> Result<(), Fail> {
    let alloc = rt.alloc();
    let fault = Some((41, ColumnarError::ReadFault));
    assert_eq!(rt; handed_back(alloc, TEN_AND_TWENTY, &[0])?, fault);
    assert_eq!(rt; handed_back(alloc, TEN_AND_TWENTY, &[1])?, fault);
    assert_eq!(rt; handed_back(alloc, TEN_AND_TWENTY, &[2])?, None);
    Ok(())
}

// Whether handles have these types, and places in a file.
fn are_at(handles: &[DynamicColumnHandle], wanted: &[(ColumnType, u64, u64)]) -> bool {
    handles.len() == wanted.len()
        && handles.iter().zip(wanted).all(|(handle, (column_type, start, end))| {
            handle.column_type() == *column_type && handle.byte_range() == (*start, *end)
        })
}

fn are_named(
    alloc: Global,
    name: &str,
    wanted: &[(ColumnType, u64, u64)],
) -> Result<bool, ColumnarError> {
    let reader = opened(alloc, PATHS, &[])?;
    Ok(are_at(&reader.read_columns(alloc, name)?, wanted))
}

fn are_below(
    alloc: Global,
    path: &str,
    wanted: &[(ColumnType, u64, u64)],
) -> Result<bool, ColumnarError> {
    let reader = opened(alloc, PATHS, &[])?;
    Ok(are_at(&reader.read_subpath_columns(alloc, path)?, wanted))
}

#[test]
fn columns_are_found_by_name_and_by_path(rt: HostRuntime) -> Result<(), Fail> {
    let alloc = rt.alloc();
    assert!(rt; are_named(alloc, "col1", &[(ColumnType::Str, 0, 1)])?);
    assert!(rt; are_named(alloc, "col1\x01subcol2", &[(ColumnType::I64, 3, 6)])?);
    assert!(rt; are_named(alloc, "other", &[])?);
    assert!(rt; are_named(alloc, "col1\0", &[])?);
    let below = [(ColumnType::Str, 1, 3), (ColumnType::I64, 3, 6)];
    assert!(rt; are_below(alloc, "col1", &below)?);
    assert!(rt; are_below(alloc, "col", &[])?);
    assert!(rt; are_below(alloc, "col1\0", &[])?);
    Ok(())
}

// Whether a check of a file of these bytes tells this of its entries.
fn are_checked(
    alloc: Global,
    bytes: &'static [u8],
    failing: &[u64],
    wanted: &[bool],
) -> Result<bool, ColumnarError> {
    let mut reader = opened(alloc, bytes, failing)?;
    Ok(check_columns(alloc, &mut reader)?.as_slice() == wanted)
}

#[test]
fn entries_are_told_apart_from_columns(rt: HostRuntime) -> Result<(), Fail> {
    let alloc = rt.alloc();
    assert!(rt; are_checked(alloc, TEN_AND_TWENTY, &[], &[true])?);
    assert!(rt; are_checked(alloc, PATHS, &[], &[false, false, false, false])?);
    let fault = are_checked(alloc, PATHS, &[4], &[]);
    assert_eq!(rt; fault, Err(ColumnarError::ReadFault));
    Ok(())
}

fn num_walked(alloc: Global) -> Result<u64, ColumnarError> {
    Ok(count_columns(&opened(alloc, PATHS, &[])?))
}

fn debug_text(alloc: Global) -> Result<String, ColumnarError> {
    let reader = opened(alloc, PATHS, &[])?;
    Ok(format!(in alloc; "{reader:?}")?)
}

#[test]
fn a_reader_prints_its_counts(rt: HostRuntime) -> Result<(), Fail> {
    assert_eq!(rt; num_walked(rt.alloc())?, 4);
    let text = debug_text(rt.alloc())?;
    assert_eq!(rt; text.as_str(), "Columnar { num_rows: 0, num_cols: 4 }");
    Ok(())
}

// The handle of the first column.
pub(crate) fn first_handle(
    reader: &ColumnarReader<MemHandle>,
) -> Result<DynamicColumnHandle, ColumnarError> {
    match reader.iter_columns().next() {
        Some((_, handle)) => Ok(handle),
        None => Err(ColumnarError::InvalidData),
    }
}

fn handle_in(alloc: Global, bytes: &'static [u8]) -> Result<DynamicColumnHandle, ColumnarError> {
    first_handle(&opened(alloc, bytes, &[])?)
}

// The first value of the last of two rows.
pub(crate) fn last_of_two<V: ColumnValues<u64>>(column: &Column<u64, V>) -> Option<u64> {
    if column.num_docs() != 2 {
        return None;
    }
    column.first(1)
}

fn lenient_in(
    alloc: Global,
    bytes: &'static [u8],
    handle: &DynamicColumnHandle,
) -> Result<LenientColumn, ColumnarError> {
    let mut reader = opened(alloc, bytes, &[])?;
    handle.open_u64_lenient(alloc, &mut reader)
}

fn lenient_last_in(
    alloc: Global,
    bytes: &'static [u8],
    handle: &DynamicColumnHandle,
) -> Result<Option<u64>, ColumnarError> {
    Ok(last_of_two(&lenient_in(alloc, bytes, handle)?))
}

#[test]
fn a_handle_opens_its_column_as_numbers(rt: HostRuntime) -> Result<(), Fail> {
    let alloc = rt.alloc();
    let handle = handle_in(alloc, TEN_AND_TWENTY)?;
    assert_eq!(rt; lenient_last_in(alloc, TEN_AND_TWENTY, &handle)?, Some(20));
    Ok(())
}

fn usage_in(
    alloc: Global,
    bytes: &'static [u8],
    handle: &DynamicColumnHandle,
) -> Result<[ColumnSpaceUsage; 2], ColumnarError> {
    let mut reader = opened(alloc, bytes, &[])?;
    let usage = handle.space_usage(alloc, &mut reader)?;
    let again = handle.column_and_dictionary_num_bytes(alloc, &mut reader)?;
    Ok([usage, again])
}

// The bytes of the column, and of its dictionary, 0 where it has none.
fn parts(usage: &ColumnSpaceUsage) -> (u64, u64) {
    let dictionary = usage.dictionary_num_bytes().unwrap_or_default();
    (usage.column_num_bytes().get_bytes(), dictionary.get_bytes())
}

#[test]
fn a_dictionary_is_counted_apart(rt: HostRuntime) -> Result<(), Fail> {
    let alloc = rt.alloc();
    let handle = handle_in(alloc, THREE_WITHOUT)?;
    let [usage, again] = usage_in(alloc, THREE_WITHOUT, &handle)?;
    assert_eq!(rt; parts(&usage), (25, 4));
    assert_eq!(rt; parts(&again), (25, 4));
    Ok(())
}
