//! Documents as bits of words.
ghost use Rattle.std.specs.Prelude.{◌≡◌, ℕ, ◌*◌, ◌^◌, ◌<◌, ◌≤◌, ◌==◌, ◌&&◌, not, length, vec_len, IfOk, IfSome, if◌then◌else◌, replicate};
ghost use Rattle.std.specs.List.{list_any};
ghost use Rattle.std.specs.Int.{div_ceil};
ghost use Rattle.col_common.specs.Flags.{flag_at, flags_of, IsFirstMember, members};

use col_common::DocId;
use std::alloc::{AllocError, Global};

/// The documents of a word.
pub(crate) const WORD_BITS: u64 = 64;

// How many words have bits for so many documents.
pub(crate) fn count_of_words(num_docs: u32) -> usize
    ensures { result ≡ div_ceil num_docs 64 }
{
    u64::from(num_docs).div_ceil(WORD_BITS) as usize
}

// Words with no bit set.
pub(crate) fn empty_words(alloc: Global, num_docs: u32) -> Result<Vec<u64>, AllocError>
    ensures { IfOk result (λ words. words.items ≡ replicate (div_ceil num_docs 64) 0) }
{
    vec![in alloc; 0; count_of_words(num_docs)]
}

// Whether the bit of a document is set; past the words none is.
#[inline]
pub(crate) fn has_bit(words: &[u64], doc: DocId) -> bool
    ensures { result ≡ flag_at words.now doc }
{
    let at = u64::from(doc);
    match words.get((at / WORD_BITS) as usize) {
        Some(word) => (*word >> (at % WORD_BITS)) & 1 == 1,
        None => false,
    }
}

// Writes the bit of a document, where there is a word for it.
#[inline]
fn put_bit(words: &mut [u64], doc: DocId, value: bool)
    ensures { (k : ℕ) → k < 64 * length words.old →
        flag_at words.new k ≡ (if k == doc then value else flag_at words.old k) }
{
    let at = u64::from(doc);
    let place = (at / WORD_BITS) as usize;
    if place < words.len() {
        let bit = 1 << (at % WORD_BITS);
        if value {
            words[place] |= bit;
        } else {
            words[place] &= !bit;
        }
    }
}

// Writes the bits of documents.
fn put_bits(words: &mut [u64], docs: &[DocId], value: bool)
    ensures { (k : ℕ) → k < 64 * length words.old → flag_at words.new k
        ≡ (if list_any (λ d. k == d) docs.now then value else flag_at words.old k) }
{
    for doc in docs {
        put_bit(words, *doc, value);
    }
}

// The words, with the bits of documents written.
pub(crate) fn with_bits(words: Vec<u64>, docs: &[DocId], value: bool) -> Vec<u64>
    ensures len { vec_len result ≡ vec_len words }
    ensures bits { (k : ℕ) → k < 64 * vec_len words → flag_at result.items k
        ≡ (if list_any (λ d. k == d) docs.now then value else flag_at words.items k) }
{
    let mut words = words;
    put_bits(&mut words, docs, value);
    words
}

// Turns each bit over.
pub(crate) fn turn_words(words: &mut [u64])
    ensures { (k : ℕ) → k < 64 * length words.old →
        flag_at words.new k ≡ not (flag_at words.old k) }
{
    for word in words.iter_mut() {
        *word ^= u64::MAX;
    }
}

// Keeps the bits that the others have.
pub(crate) fn and_words(words: &mut [u64], others: &[u64])
    ensures { length words.old ≡ length others.now → (k : ℕ) → k < 64 * length words.old →
        flag_at words.new k ≡ (flag_at words.old k && flag_at others.now k) }
{
    for at in 0..words.len().min(others.len()) {
        words[at] &= others[at];
    }
}

// The first document from a place on whose bit is set.
fn first_from(words: &[u64], num_docs: u64, from: u64) -> Option<u32>
    requires fits { num_docs < 2 ^ 32 }
    requires room { length words.now ≡ div_ceil num_docs 64 }
    ensures first { IsFirstMember (flags_of words.now num_docs) from result }
    ensures later { IfSome result (λ el. from ≤ el) }
{
    let mut at = from;
    while at < num_docs {
        let word = words[(at / WORD_BITS) as usize] >> (at % WORD_BITS);
        if word != 0 {
            let found = at + u64::from(word.trailing_zeros());
            if found < num_docs {
                return Some(found as u32);
            }
            return None;
        }
        at = (at / WORD_BITS + 1) * WORD_BITS;
    }
    None
}

// The documents whose bits are set, ascending.
pub(crate) fn docs_of_words(
    alloc: Global,
    words: &[u64],
    num_docs: u32,
) -> Result<Vec<DocId>, AllocError>
    ensures { length words.now ≡ div_ceil num_docs 64
        → IfOk result (λ docs. docs.items ≡ members (flags_of words.now num_docs)) }
{
    let mut docs = Vec::new(alloc);
    if words.len() != count_of_words(num_docs) {
        return Ok(docs);
    }
    let num_docs = u64::from(num_docs);
    let mut at = 0;
    while let Some(doc) = first_from(words, num_docs, at) {
        docs.push(doc)?;
        at = u64::from(doc) + 1;
    }
    Ok(docs)
}
