//! What calls make of one column.
ghost use Rattle.std.specs.Prelude.{◌≡◌, Result, Ok, true, false};
ghost use Rattle.col_common.specs.declared.error.ColumnarError.{ColumnarError};
ghost use Rattle.col_model.specs.Table.{number};
ghost use Rattle.col_types.specs.Kinds.{numerical_kind_of};
ghost use Rattle.col_types.specs.Numbers.{number_of};
ghost use Rattle.col_writer_columns.specs.Answers.{RecordsExactly, RecordsOrRefuses};
ghost use Rattle.col_writer_columns.specs.Entries.{recorded_entry, typed_entry, tied_entry};
ghost use Rattle.col_writer_columns.specs.Posted.{posted_after};
ghost use Rattle.col_writer_columns.specs.Values.{value_type};

use col_common::{ColumnarError, DocId};
use col_types::{NumericalType, NumericalValue};
use col_writer_columns::{NumericalColumnWriter, PlainColumnWriter, StrOrBytesColumnWriter};

// A change of a column.
pub(super) trait Change<C> {
    // What it makes of the column, and answers.
    ghost makes: { Self → C → C → Result (Unit {0}) ColumnarError → Type 0 };

    fn make(self, column: &mut C) -> Result<(), ColumnarError>
        ensures { makes self column.old column.new result };
}

// A value of a document.
#[derive(Clone, Copy)]
pub(super) struct Post<V> {
    pub(super) doc: DocId,
    pub(super) value: V,
}

impl Change<NumericalColumnWriter> for Post<NumericalValue> {
    ghost makes = { λ c w v r. RecordsOrRefuses w v r
        (recorded_entry w c.doc (value_type c.value) (number (number_of c.value))) };

    #[inline]
    fn make(self, column: &mut NumericalColumnWriter) -> Result<(), ColumnarError> {
        column.record_numerical_value(self.doc, self.value)
    }
}

impl Change<StrOrBytesColumnWriter> for Post<&[u8]> {
    ghost makes = { λ c w v r. RecordsOrRefuses w.values v.values r
        (posted_after w.values c.doc c.value.now) × (v.is_forced ≡ w.is_forced)
        × (v.sorts ≡ w.sorts) };

    #[inline]
    fn make(self, column: &mut StrOrBytesColumnWriter) -> Result<(), ColumnarError> {
        column.record_bytes(self.doc, self.value)
    }
}

impl<T: Copy> Change<PlainColumnWriter<T>> for Post<T> {
    ghost makes = { λ c w v r. RecordsOrRefuses w.column v.column r
        (posted_after w.column c.doc c.value) × (v.is_forced ≡ w.is_forced) };

    #[inline]
    fn make(self, column: &mut PlainColumnWriter<T>) -> Result<(), ColumnarError> {
        column.record(self.doc, self.value)
    }
}

// The type of numbers that is asked for.
#[derive(Clone, Copy)]
pub(super) struct NumberType(pub(super) NumericalType);

impl Change<NumericalColumnWriter> for NumberType {
    ghost makes = { λ c w v r. RecordsExactly w v r
        (typed_entry w (numerical_kind_of c.0) false) };

    fn make(self, column: &mut NumericalColumnWriter) -> Result<(), ColumnarError> {
        column.force_numerical_type(self.0)
    }
}

// The number that numbers of rows start at.
#[derive(Clone, Copy)]
pub(super) struct TieStart(pub(super) i64);

impl Change<NumericalColumnWriter> for TieStart {
    ghost makes = { λ c w v r. RecordsExactly w v r (tied_entry w c.0) };

    fn make(self, column: &mut NumericalColumnWriter) -> Result<(), ColumnarError> {
        column.set_tie_start(self.0)
    }
}

// That the type of texts is asked for, and whether those of a row are sorted.
#[derive(Clone, Copy)]
pub(super) struct TextType {
    pub(super) sorts: bool,
}

impl Change<StrOrBytesColumnWriter> for TextType {
    ghost makes = { λ c w v r. (r ≡ Ok tt) × (v.values ≡ w.values) × (v.is_forced ≡ true)
        × (v.sorts ≡ c.sorts) };

    fn make(self, column: &mut StrOrBytesColumnWriter) -> Result<(), ColumnarError> {
        column.set_type(self.sorts);
        Ok(())
    }
}

// That the type of other values is asked for.
#[derive(Clone, Copy)]
pub(super) struct PlainType;

impl<T: Copy> Change<PlainColumnWriter<T>> for PlainType {
    ghost makes = { λ c w v r. (r ≡ Ok tt) × (v.column ≡ w.column) × (v.is_forced ≡ true) };

    fn make(self, column: &mut PlainColumnWriter<T>) -> Result<(), ColumnarError> {
        column.is_forced = true;
        Ok(())
    }
}
