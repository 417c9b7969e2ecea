//! Builders of indexes.
ghost use Rattle.std.specs.Prelude.{◌≡◌, [], ℕ, true, IfErr, OnOk};
ghost use Rattle.col_common.specs.declared.error.ColumnarError.TheVariants as refusals;
ghost use Rattle.col_common.specs.Ascending.{are_below};
ghost use Rattle.col_indexer.specs.Builders.{AllHaveValues};
ghost use Rattle.col_indexer.specs.Builders.{nothing_recorded, recorded_index};
ghost use Rattle.col_indexer.specs.Spelling.{optional_index, multivalued_index, IsIndex};
ghost use Rattle.col_indexer.specs.RowViews.{rows_of};

use crate::serialize::SerializableMultivalueIndex;
use crate::{RowIds, StartOffsets};
use col_common::{ColumnarError, RowId};
use std::alloc::Global;
use std::marker::Model;

// The start offsets where no row has a value.
const NO_ROWS: [RowId; 1] = [0];

/// A builder of an index: each row with a value is recorded, and then each of its values.
pub trait IndexBuilder {
    /// Whether a row may be recorded.
    ghost TakesRow: { Self → ℕ → Type 0 };

    /// What a row changes.
    ghost AddsRow: { Self → ℕ → Self → Type 0 };

    /// Whether a value may be recorded.
    ghost TakesValue: { Self → Type 0 };

    /// What a value changes.
    ghost AddsValue: { Self → Self → Type 0 };

    /// Records a row with a value.
    fn record_row(&mut self, doc: RowId) -> Result<(), ColumnarError>
        requires { TakesRow self.old doc }
        ensures ok { OnOk result (AddsRow self.old doc self.new) }
        ensures err { IfErr result (λ e. (e ≡ refusals.OutOfMemory) × (self.new ≡ self.old)) };

    /// Records a value of the last row.
    fn record_value(&mut self) -> Result<(), ColumnarError>
        requires { TakesValue self.old }
        ensures ok { OnOk result (AddsValue self.old self.new) }
        ensures err { IfErr result (λ e. (e ≡ refusals.OutOfMemory) × (self.new ≡ self.old)) };
}

/// The builder of a Full index, which needs nothing.
#[derive(Clone, Copy, Debug, Default)]
pub struct FullIndexBuilder;

impl IndexBuilder for FullIndexBuilder {
    ghost use Rattle.std.specs.Prelude.{◌≡◌};

    ghost TakesRow = { λ b row. Unit {0} };

    ghost AddsRow = { λ old row new. new ≡ old };

    ghost TakesValue = { λ b. Unit {0} };

    ghost AddsValue = { λ old new. new ≡ old };

    #[inline]
    fn record_row(&mut self, _doc: RowId) -> Result<(), ColumnarError> {
        Ok(())
    }

    #[inline]
    fn record_value(&mut self) -> Result<(), ColumnarError> {
        Ok(())
    }
}

/// The builder of an index of rows that have at most one value. Contracts see the rows.
#[derive(Drop)]
pub struct OptionalIndexBuilder {
    docs: Vec<RowId>,
}

impl Model for OptionalIndexBuilder {
    ghost use Rattle.std.specs.Prelude.{◌≡◌, List, ℕ, true};
    ghost use Rattle.col_common.specs.Ascending.{is_rising};

    ghost Value = { List ℕ };

    ghost view = { λ b. b.docs.items };

    ghost invariant = { λ b. is_rising b.docs.items ≡ true };
}

impl OptionalIndexBuilder {
    /// A builder without rows.
    pub fn new(alloc: Global) -> OptionalIndexBuilder
        ensures { result ≡ [] }
    {
        OptionalIndexBuilder {
            docs: Vec::new(alloc),
        }
    }

    /// The rows, of a table with more rows than the last one's number.
    pub fn finish(&self, num_rows: RowId) -> RowIds<'_>
        requires { are_below num_rows self.now ≡ true }
        ensures rows { rows_of result ≡ self.now }
        ensures index { IsIndex (optional_index (record { num_rows = num_rows; rows = self.now })) }
    {
        RowIds::Slice(&self.docs)
    }

    // Lets all rows go.
    fn reset(&mut self)
        ensures { self.new ≡ [] }
    {
        self.docs.clear();
    }
}

impl IndexBuilder for OptionalIndexBuilder {
    ghost use Rattle.std.specs.Prelude.{◌≡◌, [], ◌∷◌, ◌++◌};
    ghost use Rattle.col_indexer.specs.Builders.{IsAfter};

    ghost TakesRow = { λ rows row. IsAfter rows row };

    ghost AddsRow = { λ old row new. new ≡ old ++ row ∷ [] };

    ghost TakesValue = { λ b. Unit {0} };

    ghost AddsValue = { λ old new. new ≡ old };

    #[inline]
    fn record_row(&mut self, doc: RowId) -> Result<(), ColumnarError> {
        self.docs.push(doc)?;
        Ok(())
    }

    #[inline]
    fn record_value(&mut self) -> Result<(), ColumnarError> {
        Ok(())
    }
}

/// The builder of an index of rows that have any number of values. Contracts see the rows, each
/// with its number of values.
#[derive(Drop)]
pub struct MultivaluedIndexBuilder {
    doc_with_values: Vec<RowId>,
    start_offsets: Vec<RowId>,
}

impl Model for MultivaluedIndexBuilder {
    ghost use Rattle.col_common.specs.Ascending.{differences};
    ghost use Rattle.col_indexer.specs.Builders.{RecordedRows, IsRecording};

    ghost Value = { RecordedRows };

    ghost view = { λ b.
        record { rows = b.doc_with_values.items; counts = differences b.start_offsets.items } };

    ghost invariant = { λ b. IsRecording b.doc_with_values.items b.start_offsets.items };
}

impl MultivaluedIndexBuilder {
    ghost use Rattle.col_indexer.specs.Written.{row_offsets_of};

    /// A builder without rows.
    pub fn new(alloc: Global) -> MultivaluedIndexBuilder
        ensures { result ≡ nothing_recorded }
    {
        MultivaluedIndexBuilder {
            doc_with_values: Vec::new(alloc),
            start_offsets: Vec::new(alloc),
        }
    }

    /// The index of a table with more rows than the last one's number.
    pub fn finish(&self, num_docs: RowId) -> SerializableMultivalueIndex<'_>
        requires below { are_below num_docs self.now.rows ≡ true }
        requires values { AllHaveValues self.now.counts }
        ensures rows { row_offsets_of result ≡ recorded_index num_docs self.now }
        ensures index { IsIndex (multivalued_index (recorded_index num_docs self.now)) }
    {
        let starts = if self.start_offsets.is_empty() {
            NO_ROWS.as_slice()
        } else {
            self.start_offsets.as_slice()
        };
        let rows = RowIds::Slice(&self.doc_with_values);
        SerializableMultivalueIndex::from_lists(num_docs, rows, StartOffsets::Slice(starts))
    }

    // Lets all rows go.
    fn reset(&mut self)
        ensures { self.new ≡ nothing_recorded }
    {
        self.doc_with_values.clear();
        self.start_offsets.clear();
    }
}

impl IndexBuilder for MultivaluedIndexBuilder {
    ghost use Rattle.std.specs.Prelude.{◌≡◌, ◌<◌, ◌-◌, ◌^◌, [], ◌∷◌, ◌++◌, length, sum};
    ghost use Rattle.col_indexer.specs.Builders.{IsAfter, AllHaveValues, with_value};

    ghost TakesRow = { λ b row. IsAfter b.rows row × AllHaveValues b.counts };

    ghost AddsRow = { λ old row new.
        new ≡ record { rows = old.rows ++ row ∷ []; counts = old.counts ++ 0 ∷ [] } };

    ghost TakesValue = { λ b. (0 < length b.rows) × (sum b.counts < 2 ^ 32 - 1) };

    ghost AddsValue = { λ old new.
        new ≡ record { rows = old.rows; counts = with_value old.counts } };

    #[inline]
    fn record_row(&mut self, doc: RowId) -> Result<(), ColumnarError> {
        self.doc_with_values.reserve(1)?;
        self.start_offsets.reserve(2)?;
        if self.start_offsets.is_empty() {
            self.start_offsets.push(0)?;
        }
        let start = self.start_offsets[self.start_offsets.len() - 1];
        self.start_offsets.push(start)?;
        self.doc_with_values.push(doc)?;
        Ok(())
    }

    #[inline]
    fn record_value(&mut self) -> Result<(), ColumnarError> {
        let last = self.start_offsets.len() - 1;
        self.start_offsets[last] += 1;
        Ok(())
    }
}

/// One builder of each kind, which keep their room.
#[derive(Drop)]
pub struct PreallocatedIndexBuilders {
    required_index_builder: FullIndexBuilder,
    optional_index_builder: OptionalIndexBuilder,
    multivalued_index_builder: MultivaluedIndexBuilder,
}

impl PreallocatedIndexBuilders {
    /// Empty builders.
    pub fn new(alloc: Global) -> PreallocatedIndexBuilders {
        PreallocatedIndexBuilders {
            required_index_builder: FullIndexBuilder,
            optional_index_builder: OptionalIndexBuilder::new(alloc),
            multivalued_index_builder: MultivaluedIndexBuilder::new(alloc),
        }
    }

    /// The builder of a Full index.
    pub fn borrow_required_index_builder(&mut self) -> &mut FullIndexBuilder {
        &mut self.required_index_builder
    }

    /// The builder of an Optional index, emptied.
    pub fn borrow_optional_index_builder(&mut self) -> &mut OptionalIndexBuilder
        ensures { result.now ≡ [] }
    {
        self.optional_index_builder.reset();
        &mut self.optional_index_builder
    }

    /// The builder of a Multivalued index, emptied.
    pub fn borrow_multivalued_index_builder(&mut self) -> &mut MultivaluedIndexBuilder
        ensures { result.now ≡ nothing_recorded }
    {
        self.multivalued_index_builder.reset();
        &mut self.multivalued_index_builder
    }
}
