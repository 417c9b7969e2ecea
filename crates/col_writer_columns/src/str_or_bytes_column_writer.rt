//! The texts of a column, in order of recording.
ghost use Rattle.std.specs.Prelude.{◌≡◌, ◌<◌, ◌-◌, ◌^◌, [], true, false, map, length, min, sum_by};
ghost use Rattle.std.specs.Ordering.{nat_cmp};
ghost use Rattle.std.specs.Cmp.Lexicographic.{slice_cmp};
ghost use Rattle.col_model.specs.ColumnType as types;
ghost use Rattle.col_model.specs.Sorted.{distinct_items};
ghost use Rattle.col_model.specs.Table.{text};
ghost use Rattle.col_writer_columns.specs.Answers.{RecordsOrRefuses, Gives};
ghost use Rattle.col_writer_columns.specs.Columns.{records_of};
ghost use Rattle.col_writer_columns.specs.Posted.{posted_after};
ghost use Rattle.col_writer_columns.specs.Sorting.{sorted_docs};
ghost use Rattle.col_writer_columns.specs.SoundEntries.{AreSoundTexts};
ghost use Rattle.col_writer_columns.specs.Texts.{no_texts, HaveTexts};

use crate::ColumnWriter;
use crate::sort_keys::TextKeys;
use crate::sort_order::{SortedDocs, sort_docs};
use col_common::{ColumnarError, DocId, RowId};
use col_terms::{DictionaryBuilder, terms_are_those_given};
use std::alloc::Global;
use std::marker::Model;

/// The texts of a column: their terms, and the id of the term of each value. Contracts see the
/// texts.
#[derive(Drop)]
pub struct StrOrBytesColumnWriter {
    dictionary: DictionaryBuilder,
    column: ColumnWriter<u32>,
    sort_values_within_row: bool,
    is_forced: bool,
}

impl Model for StrOrBytesColumnWriter {
    ghost use Rattle.col_writer_columns.specs.Texts.{RecordedTexts, texts_by_id, AreIds};

    ghost Value = { RecordedTexts };

    ghost view = { λ w. record {
      values = texts_by_id w.dictionary w.column;
      is_forced = w.is_forced;
      sorts = w.sort_values_within_row;
    } };

    ghost invariant = { λ w. AreIds w.dictionary w.column };
}

impl StrOrBytesColumnWriter {
    /// A column without texts.
    pub fn new(alloc: Global) -> StrOrBytesColumnWriter
        ensures { result ≡ no_texts }
    {
        StrOrBytesColumnWriter {
            dictionary: DictionaryBuilder::new(alloc),
            column: ColumnWriter::new(alloc),
            sort_values_within_row: false,
            is_forced: false,
        }
    }

    /// Records a text of a document that isn't before the last one.
    #[inline]
    pub fn record_bytes(&mut self, doc: DocId, text: &[u8]) -> Result<(), ColumnarError>
        ensures values { RecordsOrRefuses self.old.values self.new.values result
            (posted_after self.old.values doc text.now) }
        ensures forced { self.new.is_forced ≡ self.old.is_forced }
        ensures sorts { self.new.sorts ≡ self.old.sorts }
    {
        // The place is taken first, so that no term is left behind where memory is wanting.
        self.column.record(doc, 0)?;
        match self.dictionary.get_or_allocate_id(text) {
            Ok(id) => {
                self.column.set_last(id.0);
                Ok(())
            }
            Err(refusal) => {
                self.column.pop();
                Err(refusal)
            }
        }
    }

    /// Notes that the type was asked for, and whether the texts of a row are sorted.
    pub fn set_type(&mut self, sort_values_within_row: bool)
        ensures values { self.new.values ≡ self.old.values }
        ensures forced { self.new.is_forced ≡ true }
        ensures sorts { self.new.sorts ≡ sort_values_within_row }
    {
        self.sort_values_within_row = sort_values_within_row;
        self.is_forced = true;
    }

    /// Whether the texts of a row are sorted.
    pub fn sorts_values_within_row(&self) -> bool
        ensures { result ≡ self.now.sorts }
    {
        self.sort_values_within_row
    }

    /// The terms, and the id of the term of each value.
    pub fn parts(&self) -> (&DictionaryBuilder, &ColumnWriter<u32>)
        ensures { HaveTexts result.0.now result.1.now self.now.values }
    {
        (&self.dictionary, &self.column)
    }

    /// How many texts there are.
    pub fn num_values(&self) -> u64
        ensures value { result ≡ length self.now.values }
        ensures few { result < 2 ^ 32 }
    {
        self.column.num_values()
    }

    /// How many bytes the distinct texts have, as far as 64 bits count.
    pub fn terms_num_bytes(&self) -> u64
        ensures { result ≡ min (sum_by length (distinct_items (slice_cmp nat_cmp)
            (map (λ p. p.1) self.now.values))) (2 ^ 64 - 1) }
    {
        self.dictionary.terms_num_bytes()
    }

    /// That the entry of texts is sound, as one of str and as one of bytes.
    pub fn entry_is_sound(&self)
        ensures { AreSoundTexts self.now }
    {
        self.dictionary.terms_are_bytes();
    }

    /// The documents 0 to `num_docs` - 1 by their first text, or by falling ones.
    pub fn sort_order(&self, alloc: Global, num_docs: RowId, reversed: bool) -> SortedDocs
        ensures { (t : types.ColumnType) → Gives (λ v. v.items) result
            (sorted_docs (records_of t text self.now.values) num_docs reversed) }
    {
        terms_are_those_given();
        let mapping = self.dictionary.build_term_id_mapping()?;
        let keys = TextKeys::new(self.column.values(), &mapping);
        sort_docs(alloc, self.column.docs(), &keys, num_docs, reversed)
    }
}
