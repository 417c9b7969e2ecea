//! Columns: an index with values.
ghost use Rattle.std.specs.Prelude.{◌≡◌, ◌<◌, ◌≤◌, true, length, map, slice_range, IfErr};
ghost use Rattle.std.specs.List.{All};
ghost use Rattle.std.specs.Range.{range_inclusive_start, range_inclusive_end};
ghost use Rattle.col_common.specs.Ascending.{AreBelow, is_rising};
ghost use Rattle.col_common.specs.Replacing.{Replaces};
ghost use Rattle.col_common.specs.declared.error.ColumnarError.TheVariants as refusals;
ghost use Rattle.col_indexer.specs.Appending.{AppendsBoth};
ghost use Rattle.col_indexer.specs.Indexes.{shape_of};
ghost use Rattle.col_indexer.specs.Offsets.{cardinality_in, positions_of_rows, found_rows, positions_of};
ghost use Rattle.col_indexer.specs.Versions.{cardinality_of};
ghost use Rattle.col_model.specs.Index.{empty_shape};
ghost use Rattle.col_values.specs.Values.{IsAtMost, is_between};
ghost use Rattle.col_column.specs.Columns.{IsCounted, AreOf, rows_by, rows_of_values, num_docs_in, row_at, first_at, firsts_or};
ghost use Rattle.col_column.specs.Lookups.{docs_passing};

use crate::doc_values::DocValues;
use crate::first_value_with_default::FirstValueWithDefault;
use col_common::{ColumnarError, DocId, RowId};
use col_indexer::{Cardinality, ColumnIndex};
use col_numbers::NumValues;
use col_values::{
    ColumnValues, EmptyColumnValues, MonotonicColumn, MonotonicallyMappableToU64,
    StrictlyMonotonicMappingToInternal, monotonic_map_column,
};
use std::marker::{Model, PhantomData};
use std::ops::{Range, RangeInclusive};

/// A column: for each document some values, which stand one after another in a list.
#[derive(Drop)]
pub struct Column<T, V>
where
    T: PartialOrd + Copy,
    V: ColumnValues<T>,
{
    index: ColumnIndex,
    values: V,
    types: PhantomData<T>,
}

/// A column of numbers, times or flags.
pub type NumColumn<T> = Column<T, NumValues<T>>;

impl<T, V> Model for Column<T, V>
where
    T: PartialOrd + Copy,
    V: ColumnValues<T>,
{
    ghost use Rattle.std.specs.Prelude.{length};
    ghost use Rattle.col_indexer.specs.Indexes.{shape_of};
    ghost use Rattle.col_column.specs.Columns.{Seen, IsCounted};

    ghost Value = { Seen V };

    ghost view = { λ c. record { shape = shape_of c.index; values = c.values } };

    ghost invariant = { λ c. IsCounted (shape_of c.index) (length (V.values c.values)) };
}

impl<T, V> Column<T, V>
where
    T: PartialOrd + Copy,
    V: ColumnValues<T>,
{
    /// The column of an index and the values that it counts.
    pub fn new(index: ColumnIndex, values: V) -> Column<T, V>
        requires { IsCounted (shape_of index) (length (V.values values)) }
        ensures index { result.shape ≡ shape_of index }
        ensures values { result.values ≡ values }
    {
        Column {
            index,
            values,
            types: PhantomData,
        }
    }

    /// The index.
    pub fn index(&self) -> &ColumnIndex
        ensures { shape_of result.now ≡ self.now.shape }
    {
        &self.index
    }

    /// The values of all documents.
    pub fn values(&self) -> &V
        ensures { result.now ≡ self.now.values }
    {
        &self.values
    }

    /// That the index counts just the values.
    pub fn values_are_counted(&self)
        ensures { IsCounted self.now.shape (length (V.values self.now.values)) }
    {
        // That the index counts the values is known of a column whose field is read.
        let _ = &self.values;
    }

    /// The index and the values.
    pub fn into_parts(self) -> (ColumnIndex, V)
        ensures index { shape_of result.0 ≡ self.shape }
        ensures values { result.1 ≡ self.values }
        ensures counted { IsCounted (shape_of result.0) (length (V.values result.1)) }
    {
        (self.index, self.values)
    }

    /// The cardinality; a column without documents is Full.
    pub fn get_cardinality(&self) -> Cardinality
        ensures { cardinality_of result ≡ cardinality_in self.now.shape }
    {
        self.index.get_cardinality()
    }

    /// How many documents there are.
    pub fn num_docs(&self) -> RowId
        ensures { result ≡ num_docs_in V.values self.now }
    {
        match &self.index {
            ColumnIndex::Empty { num_docs } => *num_docs,
            ColumnIndex::Full => self.values.num_vals(),
            ColumnIndex::Optional(index) => index.num_docs(),
            ColumnIndex::Multivalued(index) => index.num_docs(),
        }
    }

    /// A value that none is below.
    pub fn min_value(&self) -> T
        ensures value { V.IsLeast self.now.values result }
        ensures encloses { All (IsAtMost T.partial_cmp result) (V.values self.now.values) }
    {
        self.values.min_value()
    }

    /// A value that none is above.
    pub fn max_value(&self) -> T
        ensures value { V.IsGreatest self.now.values result }
        ensures encloses { All (λ v. IsAtMost T.partial_cmp v result) (V.values self.now.values) }
    {
        self.values.max_value()
    }

    /// The first value of a document.
    #[inline]
    pub fn first(&self, doc_id: DocId) -> Option<T>
        requires { doc_id < num_docs_in V.values self.now }
        ensures { result ≡ first_at (rows_of_values V.values self.now) doc_id }
    {
        let rows = self.value_row_ids(doc_id);
        if rows.start == rows.end {
            return None;
        }
        Some(self.values.get_val(rows.start))
    }

    /// The first value of each document, None of one without.
    #[inline]
    pub fn first_vals(&self, doc_ids: &[DocId], output: &mut [Option<T>])
        requires below { AreBelow (num_docs_in V.values self.now) doc_ids.now }
        requires alike { length doc_ids.now ≡ length output.old }
        ensures { output.new ≡ map (first_at (rows_of_values V.values self.now)) doc_ids.now }
    {
        match &self.index {
            ColumnIndex::Full => self.values.get_vals_opt(doc_ids, output),
            _ => self.first_vals_by_rows(doc_ids, output),
        }
    }

    // The same, row by row.
    fn first_vals_by_rows(&self, doc_ids: &[DocId], output: &mut [Option<T>])
        requires below { AreBelow (num_docs_in V.values self.now) doc_ids.now }
        requires alike { length doc_ids.now ≡ length output.old }
        ensures { output.new ≡ map (first_at (rows_of_values V.values self.now)) doc_ids.now }
    {
        for at in 0..doc_ids.len() {
            output[at] = self.first(doc_ids[at]);
        }
    }

    /// Appends each document once for each of its values, and these values' positions. Documents
    /// that ascend are walked.
    #[inline]
    pub fn row_ids_for_docs(
        &self,
        doc_ids: &[DocId],
        doc_ids_out: &mut Vec<DocId>,
        row_ids: &mut Vec<RowId>,
    ) -> Result<(), ColumnarError>
        ensures ok { AppendsBoth doc_ids_out.old.items doc_ids_out.new.items
            row_ids.old.items row_ids.new.items result
            (found_rows (positions_of_rows self.now.shape doc_ids.now))
            (positions_of (positions_of_rows self.now.shape doc_ids.now)) }
        ensures err { IfErr result (λ e. e ≡ refusals.OutOfMemory) }
    {
        self.index.docids_to_rowids(doc_ids, doc_ids_out, row_ids)
    }

    /// The values of a document, in order.
    #[inline]
    pub fn values_for_doc(&self, doc_id: DocId) -> DocValues<'_, T, V>
        requires { doc_id < num_docs_in V.values self.now }
        ensures { result ≡ row_at (rows_of_values V.values self.now) doc_id }
    {
        DocValues::between(&self.values, self.value_row_ids(doc_id))
    }

    // The positions of a document's values.
    #[inline]
    fn value_row_ids(&self, doc_id: DocId) -> Range<RowId>
        requires { doc_id < num_docs_in V.values self.now }
        ensures { AreOf (V.values self.now.values) (result.start, result.end)
            (row_at (rows_of_values V.values self.now) doc_id) }
    {
        // That there are fewer than 2 ^ 32 values is known of the count.
        let _count = self.values.num_vals();
        self.index.value_row_ids_if_any(doc_id)
    }

    /// The documents in a range that have a value from the first to the last, ascending, each once.
    #[tactic(auto, using(crate::proofs::LookupLemmas::docs_rise))]
    pub fn get_docids_for_value_range(
        &self,
        value_range: RangeInclusive<T>,
        selected_docid_range: Range<DocId>,
        doc_ids: &mut Vec<DocId>,
    ) -> Result<(), ColumnarError>
        ensures ok { Replaces result doc_ids.new.items
            (docs_passing (is_between T.partial_cmp (range_inclusive_start value_range)
            (range_inclusive_end value_range)) (rows_of_values V.values self.now)
            selected_docid_range.start selected_docid_range.end) }
        ensures rises { is_rising doc_ids.new.items ≡ true }
    {
        find_docids(
            &self.index,
            &self.values,
            value_range,
            selected_docid_range,
            doc_ids,
        )
    }
}

// The documents in a range that have a value from the first to the last, among those of an index
// and the values that it counts.
fn find_docids<T, V>(
    index: &ColumnIndex,
    values: &V,
    value_range: RangeInclusive<T>,
    docs: Range<DocId>,
    doc_ids: &mut Vec<DocId>,
) -> Result<(), ColumnarError>
where
    T: PartialOrd + Copy,
    V: ColumnValues<T>,
    requires { IsCounted (shape_of index.now) (length (V.values values.now)) }
    ensures { Replaces result doc_ids.new.items
        (docs_passing (is_between T.partial_cmp (range_inclusive_start value_range)
        (range_inclusive_end value_range)) (rows_by (shape_of index.now) (V.values values.now))
        docs.start docs.end) }
{
    let (low, high) = value_range.into_inner();
    let start = docs.start;
    let row_ids = index.docid_range_to_rowids(docs);
    values.get_row_ids_between(low, high, row_ids, doc_ids)?;
    index.select_batch_in_place(start, doc_ids);
    Ok(())
}

impl<T, V> Column<T, V>
where
    T: Ord + Copy,
    V: ColumnValues<T>,
{
    /// The first value of each document, or a default: a list whose bounds include the default.
    pub fn first_or_default_col(self, default_value: T) -> FirstValueWithDefault<T, V>
        ensures values { result.values ≡ firsts_or default_value (rows_of_values V.values self) }
        ensures low { IsAtMost T.partial_cmp result.low default_value }
        ensures high { IsAtMost T.partial_cmp default_value result.high }
    {
        FirstValueWithDefault::new(self, default_value)
    }
}

impl<T> Column<T, NumValues<T>>
where
    T: MonotonicallyMappableToU64 + Default,
{
    ghost use Rattle.col_numbers.specs.NumValues.{num_values_of};
    ghost use Rattle.col_values.specs.Bounds.{AreExact};
    ghost use Rattle.col_values.specs.Codes.{number_cmp};

    /// A column of so many documents, none of which has a value.
    pub fn build_empty_column(num_docs: RowId) -> NumColumn<T>
        ensures { result.shape ≡ empty_shape num_docs }
    {
        Column::new(
            ColumnIndex::Empty { num_docs },
            NumValues::Empty(EmptyColumnValues),
        )
    }

    /// The same column over the numbers of its values. Its bounds are the least and the greatest of
    /// them, and 0 without values.
    pub fn to_u64_monotonic(
        self,
    ) -> Column<u64, MonotonicColumn<T, u64, NumValues<T>, StrictlyMonotonicMappingToInternal<T>>>
        ensures shape { result.shape ≡ self.shape }
        ensures values { result.values.values ≡ map T.code (num_values_of self.values) }
        ensures exact { AreExact number_cmp (λ n. n ≡ 0)
            result.values.values result.values.low result.values.high }
    {
        self.values.values_are_in_type();
        let map = StrictlyMonotonicMappingToInternal::new();
        Column::new(self.index, monotonic_map_column(self.values, map))
    }
}
