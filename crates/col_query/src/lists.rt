//! Documents as rising lists.
ghost use Rattle.std.specs.Prelude.{◌≡◌, ℕ, ◌^◌, ◌+◌, ◌<◌, ◌≤◌, ◌∷◌, ◌++◌, [], Bool, not, length, filter, IfOk, OnOk, if◌then◌else◌, slice_index_or};
ghost use Rattle.col_common.specs.Flags.{flag_at};
ghost use Rattle.col_query.specs.Sets.{docs_where, turn_over, is_kept};

use crate::words::has_bit;
use col_common::DocId;
use std::alloc::{AllocError, Global};

// Which documents of two lists a merge keeps: those of the left one alone, of both, of the right
// one alone.
#[derive(Clone, Copy)]
pub(crate) struct Kept {
    pub(crate) left: bool,
    pub(crate) both: bool,
    pub(crate) right: bool,
}

impl Kept {
    // Whether a document is kept, by which lists have it.
    fn keeps(self, in_left: bool, in_right: bool) -> bool
        ensures { result ≡ is_kept self in_left in_right }
    {
        match (in_left, in_right) {
            (true, true) => self.both,
            (true, false) => self.left,
            (false, true) => self.right,
            (false, false) => false,
        }
    }
}

// What stands in place of a document behind the last one.
const NO_DOC: u64 = 1 << 32;

// The document at a place.
fn doc_at(docs: &[DocId], place: usize) -> u64
    ensures value { result ≡ slice_index_or docs.now place 4294967296 }
    ensures bound { result ≤ 4294967296 }
    ensures some { result < 4294967296 → place < length docs.now }
{
    match docs.get(place) {
        Some(doc) => u64::from(*doc),
        None => NO_DOC,
    }
}

// Appends a document, where it is to be kept.
fn push_if(docs: &mut Vec<DocId>, keep: bool, doc: DocId) -> Result<(), AllocError>
    ensures { OnOk result (docs.new.items ≡ docs.old.items ++ (if keep then doc ∷ [] else [])) }
{
    if keep {
        docs.push(doc)?;
    }
    Ok(())
}

// The next place, where the document there was passed.
fn place_after(place: usize, passed: bool) -> usize
    requires { place < 2 ^ 63 }
    ensures { result ≡ place + (if passed then 1 else 0) }
{
    if passed { place + 1 } else { place }
}

// The documents of two lists that are kept.
pub(crate) fn merge_docs(
    alloc: Global,
    left: &[DocId],
    right: &[DocId],
    kept: Kept,
) -> Result<Vec<DocId>, AllocError>
    ensures { (n : ℕ) (p q : ℕ → Bool) → n < 2 ^ 32 → left.now ≡ docs_where p n
        → right.now ≡ docs_where q n
        → IfOk result (λ docs. docs.items ≡ docs_where (λ d. is_kept kept (p d) (q d)) n) }
{
    let mut docs = Vec::new(alloc);
    let mut i = 0;
    let mut j = 0;
    'docs: loop {
        let x = doc_at(left, i);
        let y = doc_at(right, j);
        let low = x.min(y);
        if low == NO_DOC {
            return Ok(docs);
        }
        let keep = kept.keeps(x == low, y == low);
        push_if(&mut docs, keep, low as u32)?;
        i = place_after(i, x == low);
        j = place_after(j, y == low);
    }
}

// The documents of a list whose bits are set, or aren't where they are to be turned over.
pub(crate) fn filter_docs(
    alloc: Global,
    docs: &[DocId],
    words: &[u64],
    to_turn: bool,
) -> Result<Vec<DocId>, AllocError>
    ensures { IfOk result (λ found. found.items
        ≡ filter (λ d. turn_over to_turn (flag_at words.now d)) docs.now) }
{
    let mut found = Vec::new(alloc);
    for doc in docs {
        let keep = turned_bit(has_bit(words, *doc), to_turn);
        push_if(&mut found, keep, *doc)?;
    }
    Ok(found)
}

fn turned_bit(bit: bool, to_turn: bool) -> bool
    ensures { result ≡ turn_over to_turn bit }
{
    if to_turn { !bit } else { bit }
}

// The documents below a count that a list leaves out.
pub(crate) fn other_docs(
    alloc: Global,
    docs: &[DocId],
    num_docs: u32,
) -> Result<Vec<DocId>, AllocError>
    ensures { (p : ℕ → Bool) → docs.now ≡ docs_where p num_docs
        → IfOk result (λ others. others.items ≡ docs_where (λ d. not (p d)) num_docs) }
{
    let mut others = Vec::new(alloc);
    let mut place = 0;
    for doc in 0..num_docs {
        let is_here = doc_at(docs, place) == u64::from(doc);
        push_if(&mut others, !is_here, doc)?;
        place = place_after(place, is_here);
    }
    Ok(others)
}
