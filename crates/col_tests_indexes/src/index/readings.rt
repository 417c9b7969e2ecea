//! What indexes answer of their rows.

use bytes::Bytes;
use col_common::{DocId, RowId};
use col_index::{
    CURRENT_VERSION, ColumnIndex, MultiValueIndex, OptionalIndex, SelectCursor, Set, Version,
    indexes_have_counts, open_multivalued_index, open_optional_index,
};
use std::alloc::Global;
use std::process::Abort;
use std::test::Fail;

// Documents, those of them that have values, once for each, and the positions of these.
#[derive(Clone, Copy)]
struct Answers<'a> {
    docs: &'a [DocId],
    with_values: &'a [DocId],
    positions: &'a [RowId],
}

fn assert_answers(
    rt: &impl Abort,
    alloc: Global,
    index: &ColumnIndex,
    answers: Answers<'_>,
    text: &str,
) -> Result<(), Fail> {
    let mut docs = Vec::new(alloc);
    let mut positions = Vec::new(alloc);
    index.docids_to_rowids(answers.docs, &mut docs, &mut positions)?;
    assert_eq!(rt; docs.as_slice(), answers.with_values);
    assert_eq!(rt; positions.as_slice(), answers.positions);
    let shown = format!(in alloc; "{index:?}")?;
    assert_eq!(rt; shown.as_str(), text);
    Ok(())
}

#[test]
fn rows_with_many_values_have_runs_of_positions(rt: HostRuntime) -> Result<(), Fail> {
    let index = MultiValueIndex::for_test(rt.alloc(), &[0, 2, 2, 2, 2, 2, 2, 4])?;
    assert_eq!(rt;
        (index.next_non_null_doc(1), index.next_non_null_doc(7)),
        (Some(6), None)
    );
    assert_eq!(rt;
        (
            index.next_end(0, 0),
            index.next_end(1, 0),
            index.next_end(2, 0)
        ),
        (Some((0, 2)), Some((0, 4)), None)
    );
    let answers = Answers {
        docs: &[0, 5, 6],
        with_values: &[0, 0, 6, 6],
        positions: &[0, 1, 2, 3],
    };
    let text = "Multivalued(MultiValuedIndex { num_rows: 3, .. })";
    assert_answers(&rt, rt.alloc(), &ColumnIndex::from(index), answers, text)
}

// A copy has the rows and positions that follow from offsets 0, 2, 2, 3.
fn assert_copied(rt: &impl Abort, alloc: Global, index: &MultiValueIndex) -> Result<(), Fail> {
    let copy = index.try_clone(alloc)?;
    assert_eq!(rt;
        (copy.range(1), copy.range_if_any(1), copy.range(2)),
        (2..2, 0..0, 2..3)
    );
    assert_eq!(rt;
        (
            copy.num_docs(),
            copy.has_value(1),
            copy.next_non_null_doc(1)
        ),
        (3, false, Some(2))
    );
    Ok(())
}

#[test]
fn an_index_of_version_1_passes_over_rows_without_values(rt: HostRuntime) -> Result<(), Fail> {
    let bytes = Bytes::from_static(b"\x00\x80\x81\x83\x84\xe8");
    let index = open_multivalued_index(rt.alloc(), bytes, Version::V1)?;
    assert_copied(&rt, rt.alloc(), &index)?;
    assert_eq!(rt;
        (
            index.next_end(0, 0),
            index.next_end(1, 0),
            index.next_end(2, 0)
        ),
        (Some((1, 2)), Some((3, 3)), None)
    );
    let answers = Answers {
        docs: &[2, 1, 0, 3],
        with_values: &[2, 0, 0],
        positions: &[2, 0, 1],
    };
    let text = "Multivalued(MultiValuedIndex { num_rows: 4, .. })";
    assert_answers(&rt, rt.alloc(), &ColumnIndex::from(index), answers, text)
}

// Documents are kept where they have a rank, and those that follow one are told.
fn assert_ranks(rt: &impl Abort, alloc: Global, index: &OptionalIndex) -> Result<(), Fail> {
    index.ranks_are_undone();
    let mut docs = Vec::new(alloc);
    let mut rows = Vec::new(alloc);
    index.rank_if_exists_batch(&[0, 5, 6], &mut docs, &mut rows)?;
    assert_eq!(rt; docs.as_slice(), [0, 6].as_slice());
    assert_eq!(rt; rows.as_slice(), [0, 1].as_slice());
    assert_eq!(rt; index.next_non_null_doc(1), Some(6));
    Ok(())
}

#[test]
fn rows_with_one_value_at_most_have_their_rank(rt: HostRuntime) -> Result<(), Fail> {
    let index = OptionalIndex::for_test(rt.alloc(), 7, &[0, 6])?;
    assert_eq!(rt; index.select_cursor().select(1), 6);
    assert_ranks(&rt, rt.alloc(), &index)?;
    let answers = Answers {
        docs: &[6, 5, 0],
        with_values: &[6, 0],
        positions: &[1, 0],
    };
    let text = "Optional(OptionalIndex { num_docs: 7, num_non_null_docs: 2, .. })";
    assert_answers(&rt, rt.alloc(), &ColumnIndex::from(index), answers, text)
}

// Ten rows, of which 0, 1, 5, 6 and 7 have a value: the form, the row count, where runs start, how
// long they are, and how many bytes the starts take.
const TWO_RUNS: &[u8] = b"\x01\x8a\0\x80\x85\x81\x82\x02\0\x82\x81\x81\x82\x02\
\x06\0\0\0\0\0\0\0";

// An index has these runs: the first row of each, and how many rows it has.
fn assert_runs(rt: &impl Abort, index: &OptionalIndex, wanted: &[(RowId, RowId)]) {
    let Some(runs) = index.runs() else {
        assert!(rt; false, "the rows are in runs");
        return;
    };
    assert_eq!(rt; runs.num_runs() as usize, wanted.len());
    for at in 0..runs.num_runs() {
        assert_eq!(rt; Some(&runs.run(at)), wanted.get(at as usize));
    }
}

#[test]
fn rows_in_runs_have_their_rank(rt: HostRuntime) -> Result<(), Fail> {
    let bytes = Bytes::from_static(TWO_RUNS);
    let index = open_optional_index(rt.alloc(), bytes, CURRENT_VERSION)?;
    assert_runs(&rt, &index, &[(0, 2), (5, 3)]);
    assert_eq!(rt;
        (
            index.rank(6),
            index.rank_if_exists(4),
            index.next_non_null_doc(2)
        ),
        (3, None, Some(5))
    );
    let answers = Answers {
        docs: &[7, 4, 5, 0, 9],
        with_values: &[7, 5, 0],
        positions: &[4, 2, 0],
    };
    let text = "Optional(OptionalIndex { num_docs: 10, num_non_null_docs: 5, .. })";
    assert_answers(&rt, rt.alloc(), &ColumnIndex::from(index), answers, text)
}

#[test]
fn rows_with_one_value_each_are_its_position(rt: HostRuntime) -> Result<(), Fail> {
    indexes_have_counts();
    let answers = Answers {
        docs: &[4, 2],
        with_values: &[4, 2],
        positions: &[4, 2],
    };
    assert_answers(&rt, rt.alloc(), &ColumnIndex::Full, answers, "Full")
}
