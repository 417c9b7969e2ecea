//! Written indexes and their builders by examples.
ghost use Rattle.std.specs.Prelude.{◌≡◌, false, OnOk};
ghost use Rattle.col_indexer.specs.Spelling.{multivalued_index, IsIndex, is_past_limit};
ghost use Rattle.col_indexer.specs.Written.{row_offsets_of};

use col_common::{ColumnarError, Iterable, RowId, VecSink};
use col_index::OptionalIndex;
use col_indexer::{
    IndexBuilder, MultivaluedIndexBuilder, PreallocatedIndexBuilders, RowIds,
    SerializableColumnIndex, SerializableMultivalueIndex, SerializableOptionalIndex, StartOffsets,
    serialize_column_index, serialize_multivalued_index, serialize_optional_index,
};
use std::alloc::Global;
use std::process::Abort;
use std::test::Fail;

// Two documents with three values and two.
const DOCS: [RowId; 2] = [0, 1];

const STARTS: [RowId; 3] = [0, 3, 5];

// Rows that fall.
const TURNED: [RowId; 2] = [1, 0];

const WRITTEN: [u8; 24] = [
    0x02, 0x00, 0x82, 0x00, 0x80, 0x81, 0x81, 0x82, 0x02, 0x00, 0x80, 0x81, 0x85, 0x83, 0x58, 0x01,
    0x08, 0, 0, 0, 0, 0, 0, 0,
];

// The bytes of the documents, behind the cardinality's code.
const NUM_ROW_BYTES: usize = 8;

// The first forty rows of a hundred, behind the cardinality's code: the form, the row count, where
// the run starts, how long it is, and how many bytes the starts take.
const ONE_RUN: [u8; 21] = [
    0x01, 0x01, 0xe4, 0x00, 0x80, 0x81, 0x80, 0x81, 0x00, 0xa8, 0x81, 0x80, 0x81, 0x05, 0, 0, 0, 0,
    0, 0, 0,
];

fn two_documents() -> SerializableMultivalueIndex<'static>
    ensures index { IsIndex (multivalued_index (row_offsets_of result)) }
    ensures limit { is_past_limit (multivalued_index (row_offsets_of result)) ≡ false }
{
    SerializableMultivalueIndex {
        doc_ids_with_values: SerializableOptionalIndex {
            non_null_row_ids: RowIds::Slice(&DOCS),
            num_rows: 2,
        },
        start_offsets: StartOffsets::Slice(&STARTS),
    }
}

fn empty_sink(alloc: Global) -> VecSink {
    VecSink::new(Vec::new(alloc), Vec::new(alloc))
}

#[test]
fn parts_of_an_index_are_written_as_in_the_whole(rt: HostRuntime) -> Result<(), Fail> {
    let alloc = rt.alloc();
    let mut sink = empty_sink(alloc);
    let index = two_documents();
    assert!(rt; SerializableColumnIndex::Multivalued(two_documents()).is_index());
    serialize_multivalued_index(alloc, &index, &mut sink)?;
    assert_eq!(rt; sink.bytes(), &WRITTEN[1..]);
    let optional = OptionalIndex::for_test(alloc, 2, &DOCS)?;
    let index = SerializableOptionalIndex::from(&optional);
    let mut sink = empty_sink(alloc);
    serialize_optional_index(alloc, &index.non_null_row_ids, index.num_rows, &mut sink)?;
    assert_eq!(rt; sink.bytes(), &WRITTEN[1..=NUM_ROW_BYTES]);
    let turned = SerializableColumnIndex::Optional(SerializableOptionalIndex {
        non_null_row_ids: RowIds::Slice(&TURNED),
        num_rows: 2,
    });
    assert!(rt; !turned.is_index());
    Ok(())
}

#[test]
fn rows_that_follow_one_another_are_written_as_a_run(rt: HostRuntime) -> Result<(), Fail> {
    let alloc = rt.alloc();
    let mut rows: Vec<RowId> = Vec::new(alloc);
    for row in 0..40 {
        rows.push(row)?;
    }
    let mut sink = empty_sink(alloc);
    let index = SerializableColumnIndex::Optional(SerializableOptionalIndex {
        non_null_row_ids: RowIds::Slice(&rows),
        num_rows: 100,
    });
    assert!(rt; index.is_index());
    serialize_column_index(alloc, index, &mut sink)?;
    assert_eq!(rt; sink.bytes(), ONE_RUN.as_slice());
    Ok(())
}

fn assert_items<I: Iterable<RowId>>(rt: &impl Abort, list: &I, items: &[RowId]) {
    let mut at = list.walk();
    for item in items {
        assert_eq!(rt; list.next(&mut at), Some(*item));
    }
    assert_eq!(rt; list.next(&mut at), None);
}

#[test]
#[tactic(auto, unfolding(col_indexer::specs::Builders::with_value))]
fn recorded_values_are_counted_to_their_rows(rt: HostRuntime) -> Result<(), Fail> {
    let mut builder = MultivaluedIndexBuilder::new(rt.alloc());
    builder.record_row(1)?;
    builder.record_value()?;
    builder.record_value()?;
    builder.record_row(2)?;
    builder.record_value()?;
    let index = builder.finish(4);
    assert_items(&rt, &index.doc_ids_with_values.non_null_row_ids, &[1, 2]);
    assert_items(&rt, &index.start_offsets, &[0, 2, 3]);
    Ok(())
}

// Records a row with a value.
fn record<B: IndexBuilder>(builder: &mut B, row: RowId) -> Result<(), ColumnarError>
    requires row { B.TakesRow builder.old row }
    requires value { (new : B) → B.AddsRow builder.old row new → B.TakesValue new }
    ensures { OnOk result
        ((mid : B) × B.AddsRow builder.old row mid × B.AddsValue mid builder.new) }
{
    builder.record_row(row)?;
    builder.record_value()
}

#[test]
#[tactic(auto, unfolding(col_indexer::specs::Builders::with_value))]
fn builders_are_lent_empty(rt: HostRuntime) -> Result<(), Fail> {
    let mut builders = PreallocatedIndexBuilders::new(rt.alloc());
    record(builders.borrow_required_index_builder(), 0)?;
    record(builders.borrow_optional_index_builder(), 5)?;
    let rows = builders.borrow_optional_index_builder();
    record(rows, 1)?;
    assert_items(&rt, &rows.finish(2), &[1]);
    record(builders.borrow_multivalued_index_builder(), 5)?;
    let again = builders.borrow_multivalued_index_builder();
    record(again, 1)?;
    let index = again.finish(2);
    assert_items(&rt, &index.doc_ids_with_values.non_null_row_ids, &[1]);
    assert_items(&rt, &index.start_offsets, &[0, 1]);
    Ok(())
}
