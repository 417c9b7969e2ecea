//! Terms in order, read in place.
ghost use Rattle.std.specs.Prelude.{◌≡◌, ◌<◌, ◌^◌, [], nat_lt, length, option_map, slice_get, unwrap_or, IfOk, IfErr, OnOk};
ghost use Rattle.col_common.specs.Decoding.{Decodes};
ghost use Rattle.col_model.specs.Dictionary.{terms};
ghost use Rattle.col_model.specs.Limits.{dictionary_length};
ghost use Rattle.col_terms.specs.Lookups.{ord_of};
ghost use Rattle.col_terms.specs.Streams.{stream_of, numbered, with_prefix};

use crate::streamer::Streamer;
use crate::table::{EMPTY_TABLE, count_terms, first_from, prefix_end, search, term_in};
use bytes::Bytes;
use col_common::ColumnarError;
use std::marker::Model;

/// Where a term stands, or where it would.
#[derive(Clone, Copy, Debug, PartialEq, Eq)]
pub enum TermOrdHit {
    /// The ordinal of the term.
    Exact(u64),
    /// The ordinal of the first greater term, or how many terms there are.
    Next(u64),
}

/// Terms in strict order, by their ordinals. They are read in place.
#[derive(Drop)]
pub struct Dictionary {
    bytes: Bytes,
    num_terms: u32,
}

impl Model for Dictionary {
    ghost use Rattle.std.specs.Prelude.{List, ℕ};
    ghost use Rattle.col_terms.specs.TermTable.{terms_of, IsTable};

    ghost Value = { List (List ℕ) };

    ghost view = { λ d. terms_of d.bytes };

    ghost invariant = { λ d. IsTable d.bytes d.num_terms };
}

impl Dictionary {
    ghost use Rattle.col_terms.specs.Lookups.{IsHit};

    /// A dictionary without terms.
    pub fn empty() -> Dictionary
        ensures { result ≡ [] }
    {
        Dictionary {
            bytes: Bytes::from_static(&EMPTY_TABLE),
            num_terms: 0,
        }
    }

    /// Opens the bytes of a dictionary.
    pub fn from_bytes(bytes: Bytes) -> Result<Dictionary, ColumnarError>
        ensures ok { Decodes (λ d. d) result (terms bytes) }
        // No memory is taken.
        ensures invalid_data { IfErr result (λ e. e ≡ ColumnarError.InvalidData) }
    {
        match count_terms(bytes.as_slice()) {
            Some(num_terms) => Ok(Dictionary { bytes, num_terms }),
            None => Err(ColumnarError::InvalidData),
        }
    }

    /// How many terms there are.
    pub fn num_terms(&self) -> usize
        ensures { result ≡ length self.now }
    {
        self.num_terms as usize
    }

    /// That 32 bits count the terms.
    pub fn terms_are_few(&self)
        ensures { length self.now < 2 ^ 32 }
    {
        let _count = self.count();
    }

    // How many terms there are, as 32 bits count.
    fn count(&self) -> u32
        ensures { result ≡ length self.now }
    {
        self.num_terms
    }

    /// How many bytes the dictionary takes.
    pub fn num_bytes(&self) -> u64
        ensures { result ≡ dictionary_length self.now }
    {
        self.bytes.len() as u64
    }

    /// Puts the term of an ordinal in the place of what `term` holds, if there is one; else `term`
    /// is left empty.
    pub fn ord_to_term(&self, ord: u64, term: &mut Vec<u8>) -> Result<bool, ColumnarError>
        ensures found { IfOk result (λ found. found ≡ nat_lt ord (length self.now)) }
        ensures term { OnOk result (term.new.items ≡ unwrap_or (slice_get self.now ord) []) }
        ensures err { IfErr result (λ e. (e ≡ ColumnarError.OutOfMemory) × (term.new.items ≡ [])) }
    {
        term.clear();
        let Some(bytes) = self.term_at(ord) else {
            return Ok(false);
        };
        term.extend_from_slice(bytes)?;
        Ok(true)
    }

    /// The term of an ordinal.
    #[inline]
    pub fn term_at(&self, ord: u64) -> Option<&[u8]>
        ensures { option_map (λ t. t.now) result ≡ slice_get self.now ord }
    {
        if ord >= u64::from(self.num_terms) {
            return None;
        }
        Some(term_in(self.bytes.as_slice(), self.num_terms, ord as u32))
    }

    /// The ordinal of a term.
    pub fn term_ord(&self, key: &[u8]) -> Option<u64>
        ensures { result ≡ ord_of self.now key.now }
    {
        match search(self.bytes.as_slice(), self.num_terms, key) {
            Ok(ord) => Some(u64::from(ord)),
            Err(_) => None,
        }
    }

    /// The ordinal of a term, or of the first greater one.
    pub fn term_ord_or_next(&self, key: &[u8]) -> TermOrdHit
        ensures { IsHit self.now key.now result }
    {
        match search(self.bytes.as_slice(), self.num_terms, key) {
            Ok(ord) => TermOrdHit::Exact(u64::from(ord)),
            Err(ord) => TermOrdHit::Next(u64::from(ord)),
        }
    }

    /// A walk over all terms.
    pub fn stream(&self) -> Streamer<'_>
        ensures { result ≡ stream_of (numbered self.now) }
    {
        Streamer::between(self.bytes.as_slice(), self.num_terms, 0, self.num_terms)
    }

    /// A walk over the terms with a prefix.
    pub fn prefix_range<'a>(&'a self, prefix: &[u8]) -> Streamer<'a>
        ensures { result ≡ stream_of (with_prefix prefix.now self.now) }
    {
        let bytes = self.bytes.as_slice();
        let start = first_from(bytes, self.num_terms, prefix);
        let end = prefix_end(bytes, self.num_terms, start, prefix);
        Streamer::between(bytes, self.num_terms, start, end)
    }
}
