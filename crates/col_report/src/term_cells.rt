//! What prints the values of columns of terms, which are the ordinals of these.
ghost use Rattle.col_model.specs.Column.{term_cell};
ghost use Rattle.col_model.specs.ColumnType as types;
ghost use Rattle.col_program.specs.Report.{text_data};
ghost use Rattle.col_report.specs.Printed.{PutsData, digits_data};

use crate::cells::PrintCells;
use col_print::{Out, put_hex, put_quoted};
use col_terms::Dictionary;

// Prints texts, by their ordinals.
#[derive(Drop)]
pub(crate) struct TextCells<'a> {
    pub(crate) dictionary: &'a Dictionary,
}

impl<'a> PrintCells<u64> for TextCells<'a> {
    ghost kind = { types.str };

    ghost cell = { λ s. term_cell s.dictionary.now };

    fn put<O: Out>(&self, value: u64, out: &mut O) {
        match self.dictionary.term_at(value) {
            Some(term) => put_text(out, term),
            None => put_text(out, &[]),
        }
    }
}

// Prints byte strings, by their ordinals.
#[derive(Drop)]
pub(crate) struct BytesCells<'a> {
    pub(crate) dictionary: &'a Dictionary,
}

impl<'a> PrintCells<u64> for BytesCells<'a> {
    ghost kind = { types.bytes };

    ghost cell = { λ s. term_cell s.dictionary.now };

    #[tactic(auto, unfolding(crate::specs::Printed::PutsData))]
    fn put<O: Out>(&self, value: u64, out: &mut O) {
        match self.dictionary.term_at(value) {
            Some(term) => put_hex(out, term),
            None => put_hex(out, &[]),
        }
    }
}

// Puts a text in quotes, or its digits in hexadecimal where it isn't UTF-8.
pub(crate) fn put_text<O: Out>(out: &mut O, term: &[u8])
    ensures { PutsData (O.seen out.old) (O.seen out.new) (text_data term.now) }
{
    match std::str::from_utf8(term) {
        Ok(text) => put_quoted(out, text),
        Err(_) => put_digits(out, term),
    }
}

// Puts the array of the word `hex` and of these digits.
fn put_digits<O: Out>(out: &mut O, term: &[u8])
    ensures { PutsData (O.seen out.old) (O.seen out.new) (digits_data term.now) }
{
    out.put(b"[\"hex\",");
    put_hex(out, term);
    out.put(b"]");
}
