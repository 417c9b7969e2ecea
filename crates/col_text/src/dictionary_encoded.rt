//! Columns of terms: a dictionary, and a column of the ordinals of terms in it.
ghost use Rattle.std.specs.Prelude.{◌≡◌, ◌<◌, [], nat_lt, true, length, slice_get, unwrap_or, IfOk, IfErr, OnOk};
ghost use Rattle.std.specs.Str.{IsUtf8};
ghost use Rattle.col_common.specs.Ascending.{is_rising};
ghost use Rattle.col_common.specs.Replacing.{Replaces};
ghost use Rattle.col_model.specs.Index.{empty_shape};
ghost use Rattle.col_model.specs.Lookup.{docs_between};
ghost use Rattle.col_model.specs.Table.{text};
ghost use Rattle.col_column.specs.Columns.{IsCounted, rows_of_values, num_docs_in, row_at};
ghost use Rattle.col_column.specs.NumValues.{num_values_of};
ghost use Rattle.col_text.specs.Texts.{AreOrdinals, StartAt, EndAt, texts_content};

use col_column::{Column, DocValues, NumColumn, NumValues};
use col_common::{ColumnarError, DocId, RowId};
use col_terms::{Dictionary, TermOrdHit};
use std::marker::Model;
use std::ops::Range;

/// A column of byte strings: each value is the ordinal of a term of the dictionary.
#[derive(Drop)]
pub struct BytesColumn {
    dictionary: Dictionary,
    term_ord_column: NumColumn<u64>,
}

impl Model for BytesColumn {
    ghost use Rattle.col_text.specs.Texts.{Texts, AreOrdinals};

    ghost Value = { Texts };

    ghost view = { λ c. record { terms = c.dictionary; ords = c.term_ord_column } };

    ghost invariant = { λ c. AreOrdinals c.dictionary c.term_ord_column };
}

impl BytesColumn {
    // The column of a dictionary and ordinals of its terms.
    pub(crate) fn new(dictionary: Dictionary, term_ord_column: NumColumn<u64>) -> BytesColumn
        requires { AreOrdinals dictionary term_ord_column }
        ensures terms { result.terms ≡ dictionary }
        ensures ords { result.ords ≡ term_ord_column }
    {
        BytesColumn {
            dictionary,
            term_ord_column,
        }
    }

    /// A column of so many rows, none of which has a value.
    pub fn empty(num_rows: RowId) -> BytesColumn
        ensures terms { result.terms ≡ [] }
        ensures shape { result.ords.shape ≡ empty_shape num_rows }
    {
        BytesColumn::new(
            Dictionary::empty(),
            Column::<u64, NumValues<u64>>::build_empty_column(num_rows),
        )
    }

    /// Puts the term of an ordinal in the place of what `output` holds, if there is one; else
    /// `output` is left empty.
    pub fn ord_to_bytes(&self, ord: u64, output: &mut Vec<u8>) -> Result<bool, ColumnarError>
        ensures found { IfOk result (λ found. found ≡ nat_lt ord (length self.now.terms)) }
        ensures term { OnOk result
            (output.new.items ≡ unwrap_or (slice_get self.now.terms ord) []) }
        ensures err { IfErr result
            (λ e. (e ≡ ColumnarError.OutOfMemory) × (output.new.items ≡ [])) }
    {
        self.dictionary.ord_to_term(ord, output)
    }

    /// That terms ascend, that each value is the ordinal of one, and that the index counts just the
    /// values.
    pub fn ordinals_are_told(&self)
        ensures ordinals { AreOrdinals self.now.terms self.now.ords }
        ensures counted { IsCounted self.now.ords.shape
            (length (num_values_of self.now.ords.values)) }
    {
        self.term_ord_column.values_are_counted();
    }

    /// How many rows there are.
    pub fn num_rows(&self) -> RowId
        ensures { result ≡ num_docs_in num_values_of self.now.ords }
    {
        self.term_ord_column.num_docs()
    }

    /// The ordinals of a row's terms, in order.
    #[inline]
    pub fn term_ords(&self, row_id: RowId) -> DocValues<'_, u64, NumValues<u64>>
        requires { row_id < num_docs_in num_values_of self.now.ords }
        ensures { result ≡ row_at (rows_of_values num_values_of self.now.ords) row_id }
    {
        self.term_ord_column.values_for_doc(row_id)
    }

    /// The column of ordinals.
    pub fn ords(&self) -> &NumColumn<u64>
        ensures { result.now ≡ self.now.ords }
    {
        &self.term_ord_column
    }

    /// How many terms there are.
    pub fn num_terms(&self) -> usize
        ensures { result ≡ length self.now.terms }
    {
        self.dictionary.num_terms()
    }

    /// The terms.
    pub fn dictionary(&self) -> &Dictionary
        ensures { result.now ≡ self.now.terms }
    {
        &self.dictionary
    }

    /// The dictionary and the column of ordinals.
    pub fn into_parts(self) -> (Dictionary, NumColumn<u64>)
        ensures terms { result.0 ≡ self.terms }
        ensures ords { result.1 ≡ self.ords }
    {
        (self.dictionary, self.term_ord_column)
    }

    /// The rows in a range that have a term from the first to the last, ascending, each once.
    pub fn get_docids_for_term_range(
        &self,
        low: &[u8],
        high: &[u8],
        selected_docid_range: Range<DocId>,
        doc_ids: &mut Vec<DocId>,
    ) -> Result<(), ColumnarError>
        ensures ok { Replaces result doc_ids.new.items
            (docs_between (texts_content self.now) (text low.now) (text high.now)
            selected_docid_range.start selected_docid_range.end) }
        ensures rises { is_rising doc_ids.new.items ≡ true }
    {
        let ords = &self.term_ord_column;
        let first = self.first_from(low);
        let end = self.end_of(high);
        // No term lies between the ends where none starts before the last one's end.
        if end <= first {
            doc_ids.clear();
            return Ok(());
        }
        ords.get_docids_for_value_range(first..=end - 1, selected_docid_range, doc_ids)
    }

    // The ordinal of the first term from a key on, or how many terms there are.
    fn first_from(&self, key: &[u8]) -> u64
        ensures { StartAt self.now.terms key.now result }
    {
        match self.dictionary.term_ord_or_next(key) {
            TermOrdHit::Exact(ord) | TermOrdHit::Next(ord) => ord,
        }
    }

    // How many terms there are up to a key.
    fn end_of(&self, key: &[u8]) -> u64
        ensures { EndAt self.now.terms key.now result }
    {
        // That there are fewer than 2 ^ 64 terms is known of their count.
        let _count = self.num_terms();
        match self.dictionary.term_ord_or_next(key) {
            TermOrdHit::Exact(ord) => ord + 1,
            TermOrdHit::Next(ord) => ord,
        }
    }
}

/// A column of texts.
#[derive(Drop)]
pub struct StrColumn {
    column: BytesColumn,
}

impl Model for StrColumn {
    ghost use Rattle.col_text.specs.Texts.{Texts};

    ghost Value = { Texts };

    ghost view = { λ c. c.column };
}

impl StrColumn {
    ghost use Rattle.col_text.specs.Texts.{ReadsText};

    /// A column of byte strings, seen as texts.
    pub fn wrap(bytes_column: BytesColumn) -> StrColumn
        ensures { result ≡ bytes_column }
    {
        StrColumn {
            column: bytes_column,
        }
    }

    /// The column of byte strings.
    pub fn bytes_column(&self) -> &BytesColumn
        ensures { result.now ≡ self.now }
    {
        &self.column
    }

    /// The terms.
    pub fn dictionary(&self) -> &Dictionary
        ensures { result.now ≡ self.now.terms }
    {
        self.column.dictionary()
    }

    /// The dictionary and the column of ordinals.
    pub fn into_parts(self) -> (Dictionary, NumColumn<u64>)
        ensures terms { result.0 ≡ self.terms }
        ensures ords { result.1 ≡ self.ords }
    {
        self.column.into_parts()
    }

    /// Puts the term of an ordinal in the place of what `output` holds, if there is one; else
    /// `output` is left empty. It answers NotUtf8 exactly where the term is no text.
    pub fn ord_to_str(&self, ord: u64, output: &mut String) -> Result<bool, ColumnarError>
        ensures { ReadsText result output.new (slice_get self.now.terms ord) }
    {
        output.clear();
        let Some(term) = self.column.dictionary().term_at(ord) else {
            return Ok(false);
        };
        let Ok(text) = std::str::from_utf8(term) else {
            return Err(ColumnarError::NotUtf8);
        };
        output.push_str(text)?;
        Ok(true)
    }
}

impl From<StrColumn> for BytesColumn {
    ghost from_gives = { λ str_column bytes_column. bytes_column ≡ str_column };

    fn from(str_column: StrColumn) -> BytesColumn
        ensures { result ≡ str_column }
    {
        str_column.column
    }
}
