//! The numbers of a column, in order of recording.
ghost use Rattle.std.specs.Prelude.{◌≡◌, map, option_map, true, false, Some};
ghost use Rattle.col_index.specs.Versions.{cardinality_of};
ghost use Rattle.col_model.specs.Category as categories;
ghost use Rattle.col_model.specs.ColumnType as types;
ghost use Rattle.col_model.specs.Recording.{no_records, accept_type};
ghost use Rattle.col_model.specs.Table.{number};
ghost use Rattle.col_model.specs.Written.{entry_type};
ghost use Rattle.col_types.specs.Kinds.{numerical_kind_of};
ghost use Rattle.col_types.specs.Numbers.{number_of};
ghost use Rattle.col_writer_columns.specs.Answers.{RecordsExactly, RecordsOrRefuses, Gives};
ghost use Rattle.col_writer_columns.specs.Cardinalities.{cardinality_by};
ghost use Rattle.col_writer_columns.specs.Entries.{recorded_entry, typed_entry, tied_entry};
ghost use Rattle.col_writer_columns.specs.Numerical.{AreCodes};
ghost use Rattle.col_writer_columns.specs.Sorting.{sorted_docs};
ghost use Rattle.col_writer_columns.specs.SoundEntries.{IsSoundIn};
ghost use Rattle.col_writer_columns.specs.Values.{value_type, stored_number};

use crate::ranges::codes_fit;
use crate::sort_keys::NumberKeys;
use crate::sort_order::{SortedDocs, sort_docs};
use crate::{ColumnWriter, CompatibleNumericalTypes, TypeList};
use col_common::{ColumnarError, DocId, RowId, SIGN_BIT};
use col_index::Cardinality;
use col_types::{NumericalType, NumericalValue};
use col_values::MonotonicallyMappableToU64;
use std::alloc::Global;
use std::marker::Model;

/// The numbers of a column, each with its type. Contracts see the entry of the column.
#[derive(Drop)]
pub struct NumericalColumnWriter {
    accepted: CompatibleNumericalTypes,
    types: TypeList,
    column: ColumnWriter<u64>,
    tie_start: Option<i64>,
}

impl Model for NumericalColumnWriter {
    ghost use Rattle.col_model.specs.Written.{Entry};
    ghost use Rattle.col_writer_columns.specs.Numerical.{numerical_entry, HaveNumberTypes};

    ghost Value = { Entry };

    ghost view = { λ w. numerical_entry w.accepted w.types w.column w.tie_start };

    ghost invariant = { λ w. HaveNumberTypes w.accepted w.types w.column w.tie_start };
}

impl NumericalColumnWriter {
    /// A column without numbers.
    pub fn new(alloc: Global) -> NumericalColumnWriter
        ensures { result ≡ no_records }
    {
        NumericalColumnWriter {
            accepted: CompatibleNumericalTypes::default(),
            types: TypeList::new(alloc),
            column: ColumnWriter::new(alloc),
            tie_start: None,
        }
    }

    /// Records a number of a document that isn't before the last one.
    #[inline]
    pub fn record_numerical_value(
        &mut self,
        doc: DocId,
        value: NumericalValue,
    ) -> Result<(), ColumnarError>
        ensures { RecordsOrRefuses self.old self.new result
            (recorded_entry self.old doc (value_type value) (number (number_of value))) }
    {
        let mut accepted = self.accepted;
        accepted.accept_value(value)?;
        self.types.push(value.numerical_type())?;
        if let Err(refusal) = self.column.record(doc, code_of(value)) {
            self.types.pop();
            return Err(refusal);
        }
        self.accepted = accepted;
        Ok(())
    }

    /// Forces a type, which must hold what was recorded.
    pub fn force_numerical_type(
        &mut self,
        numerical_type: NumericalType,
    ) -> Result<(), ColumnarError>
        ensures { RecordsExactly self.old self.new result
            (typed_entry self.old (numerical_kind_of numerical_type) false) }
    {
        if !self.accepted.is_type_accepted(numerical_type) {
            return Err(ColumnarError::ForcedType);
        }
        self.accepted = CompatibleNumericalTypes::StaticType(numerical_type);
        Ok(())
    }

    /// Makes it a column of the numbers from a start on, whatever is recorded, and forces i64.
    pub fn set_tie_start(&mut self, start: i64) -> Result<(), ColumnarError>
        ensures { RecordsExactly self.old self.new result (tied_entry self.old start) }
    {
        if !self.accepted.is_type_accepted(NumericalType::I64) {
            return Err(ColumnarError::ForcedType);
        }
        self.accepted = CompatibleNumericalTypes::StaticType(NumericalType::I64);
        self.tie_start = Some(start);
        Ok(())
    }

    /// The type: the forced one, else i64 before u64; none where neither holds all numbers.
    pub fn numerical_type(&self) -> Option<NumericalType>
        ensures { option_map numerical_kind_of result ≡ entry_type categories.numerical self.now }
    {
        self.accepted.to_numerical_type()
    }

    /// Multivalued where a document has two numbers, else Optional where one of so many documents,
    /// or of those up to the last one, has none, else Full.
    pub fn cardinality(&self, num_docs: RowId) -> Cardinality
        ensures { cardinality_of result
            ≡ cardinality_by num_docs (map (λ r. r.doc) self.now.records) }
    {
        self.column.get_cardinality(num_docs)
    }

    /// Where the numbers of a column of numbers start that are made as it is written.
    pub fn tie_start(&self) -> Option<i64>
        ensures { result ≡ self.now.tie_start }
    {
        self.tie_start
    }

    /// The codes of the numbers: a number plus 2^63, modulo 2^64.
    pub fn codes(&self) -> &ColumnWriter<u64>
        ensures { AreCodes self.now.records result.now }
    {
        self.types.are_numerical();
        &self.column
    }

    /// That its type holds the numbers, and that those of a document aren't sorted.
    pub fn numbers_have_its_type(&self)
        ensures holds { (t : types.ColumnType) →
            entry_type categories.numerical self.now ≡ Some t →
            accept_type self.now.records t ≡ true }
        ensures unsorted { self.now.sorts ≡ false }
    {
        // That the writer's invariant holds.
        let _ = &self.column;
    }

    /// That its entry is sound: each number is one of its own type and of the forced one.
    pub fn entry_is_sound(&self)
        ensures { IsSoundIn categories.numerical self.now }
    {
        self.types.are_numerical();
        codes_fit(self.column.values());
    }

    /// The documents 0 to `num_docs` - 1 by their first number, or by falling ones.
    pub fn sort_order(&self, alloc: Global, num_docs: RowId, reversed: bool) -> SortedDocs
        ensures { Gives (λ v. v.items) result (sorted_docs self.now.records num_docs reversed) }
    {
        let keys = NumberKeys::new(&self.types, self.column.values());
        sort_docs(alloc, self.column.docs(), &keys, num_docs, reversed)
    }
}

// The code by which a column keeps a number.
#[inline]
fn code_of(value: NumericalValue) -> u64
    ensures { stored_number (value_type value) result ≡ number_of value }
{
    match value {
        NumericalValue::I64(value) => value.to_u64(),
        NumericalValue::U64(value) => value.wrapping_add(SIGN_BIT),
    }
}
