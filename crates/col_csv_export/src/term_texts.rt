//! The texts of values of columns of terms, which are the ordinals of these.
ghost use Rattle.col_model.specs.Column.{term_cell};
ghost use Rattle.col_model.specs.ColumnType as types;

use crate::value_texts::{ValueTexts, push_digits};
use col_terms::Dictionary;
use std::alloc::{AllocError, Global};

// The texts of texts, by their ordinals.
#[derive(Drop)]
pub(crate) struct StrTexts<'a> {
    pub(crate) dictionary: &'a Dictionary,
}

impl<'a> ValueTexts<u64> for StrTexts<'a> {
    ghost kind = { types.str };

    ghost cell = { λ s. term_cell s.dictionary.now };

    fn push(&self, _alloc: Global, value: u64, field: &mut Vec<u8>) -> Result<(), AllocError> {
        match self.dictionary.term_at(value) {
            Some(term) => field.extend_from_slice(term),
            None => field.extend_from_slice(&[]),
        }
    }
}

// The texts of byte strings, by their ordinals.
#[derive(Drop)]
pub(crate) struct BytesTexts<'a> {
    pub(crate) dictionary: &'a Dictionary,
}

impl<'a> ValueTexts<u64> for BytesTexts<'a> {
    ghost kind = { types.bytes };

    ghost cell = { λ s. term_cell s.dictionary.now };

    fn push(&self, alloc: Global, value: u64, field: &mut Vec<u8>) -> Result<(), AllocError> {
        match self.dictionary.term_at(value) {
            Some(term) => push_digits(alloc, field, term),
            None => push_digits(alloc, field, &[]),
        }
    }
}
