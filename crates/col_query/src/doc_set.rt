//! Sets of documents.
ghost use Rattle.std.specs.Prelude.{◌≡◌, ℕ, ◌*◌, ◌<◌, ◌&&◌, [], Bool, true, false, not, IfOk, vec_len};
ghost use Rattle.col_common.specs.Flags.{flag_at};
ghost use Rattle.col_query.specs.Sets.{docs_where, turn_over, kept_of, IsSetOf, AreBits, AreDocs};

use crate::lists::{Kept, filter_docs, merge_docs, other_docs};
use crate::words::{and_words, count_of_words, docs_of_words, empty_words, turn_words, with_bits};
use col_common::DocId;
use std::alloc::{AllocError, Global};

// Documents, as a rising list or as bits.
#[derive(Drop)]
pub(crate) enum Docs {
    List(Vec<DocId>),
    Bits(Vec<u64>),
}

// Documents, or all but these.
#[derive(Drop)]
pub(crate) struct DocSet {
    pub(crate) docs: Docs,
    pub(crate) turned: bool,
}

impl DocSet {
    // No document.
    pub(crate) fn none(alloc: Global) -> DocSet
        ensures { (n : ℕ) → IsSetOf n (λ _. false) result }
    {
        DocSet {
            docs: Docs::List(Vec::new(alloc)),
            turned: false,
        }
    }

    // Each document, without memory.
    pub(crate) fn all(alloc: Global) -> DocSet
        ensures { (n : ℕ) → IsSetOf n (λ _. true) result }
    {
        DocSet {
            docs: Docs::List(Vec::new(alloc)),
            turned: true,
        }
    }

    // The documents of a rising list, in the smaller form.
    pub(crate) fn from_list(
        alloc: Global,
        docs: Vec<DocId>,
        num_docs: u32,
    ) -> Result<DocSet, AllocError>
        ensures { (p : ℕ → Bool) → docs.items ≡ docs_where p num_docs
            → IfOk result (IsSetOf num_docs p) }
    {
        let docs = smaller(alloc, docs, num_docs)?;
        Ok(DocSet {
            docs,
            turned: false,
        })
    }

    // The other documents.
    pub(crate) fn not(self) -> DocSet
        ensures { (n : ℕ) (p : ℕ → Bool) → IsSetOf n p self
            → IsSetOf n (λ d. not (p d)) result }
    {
        DocSet {
            docs: self.docs,
            turned: !self.turned,
        }
    }

    // The documents of both.
    pub(crate) fn and(
        self,
        alloc: Global,
        other: DocSet,
        num_docs: u32,
    ) -> Result<DocSet, AllocError>
        ensures { (p q : ℕ → Bool) → IsSetOf num_docs p self → IsSetOf num_docs q other
            → IfOk result (IsSetOf num_docs (λ d. p d && q d)) }
    {
        let DocSet { docs, turned } = self;
        match docs {
            Docs::List(docs) => list_and(alloc, docs, turned, other, num_docs),
            Docs::Bits(words) => bits_and(alloc, words, turned, other),
        }
    }

    // The documents, ascending.
    pub(crate) fn into_list(self, alloc: Global, num_docs: u32) -> Result<Vec<DocId>, AllocError>
        ensures { (p : ℕ → Bool) → IsSetOf num_docs p self
            → IfOk result (λ docs. docs.items ≡ docs_where p num_docs) }
    {
        let DocSet { docs, turned } = self;
        match docs {
            Docs::List(docs) => list_of_list(alloc, docs, turned, num_docs),
            Docs::Bits(words) => list_of_bits(alloc, words, turned, num_docs),
        }
    }
}

// The documents of a list that is turned over or not, and of another set.
fn list_and(
    alloc: Global,
    docs: Vec<DocId>,
    to_turn: bool,
    other: DocSet,
    num_docs: u32,
) -> Result<DocSet, AllocError>
    ensures { (p q : ℕ → Bool) → docs.items ≡ docs_where (λ d. turn_over to_turn (p d)) num_docs
        → IsSetOf num_docs q other → IfOk result (IsSetOf num_docs (λ d. p d && q d)) }
{
    let DocSet {
        docs: others,
        turned,
    } = other;
    match others {
        Docs::List(right) => and_lists(alloc, docs, to_turn, right, turned, num_docs),
        Docs::Bits(words) => and_mixed(alloc, docs, to_turn, words, turned),
    }
}

// The documents of bits that are turned over or not, and of another set.
fn bits_and(
    alloc: Global,
    words: Vec<u64>,
    to_turn: bool,
    other: DocSet,
) -> Result<DocSet, AllocError>
    ensures { (n : ℕ) (p q : ℕ → Bool) → AreBits n (λ d. turn_over to_turn (p d)) words.items
        → IsSetOf n q other → IfOk result (IsSetOf n (λ d. p d && q d)) }
{
    let DocSet {
        docs: others,
        turned,
    } = other;
    match others {
        Docs::List(docs) => and_mixed(alloc, docs, turned, words, to_turn),
        Docs::Bits(right) => Ok(and_bits(words, to_turn, right, turned)),
    }
}

// Which documents of two lists, each turned over or not, a merge keeps for the set of both.
fn kept_of(left_turned: bool, right_turned: bool) -> Kept
    ensures { result ≡ kept_of left_turned right_turned }
{
    match (left_turned, right_turned) {
        (false, false) => Kept {
            left: false,
            both: true,
            right: false,
        },
        (false, true) => Kept {
            left: true,
            both: false,
            right: false,
        },
        (true, false) => Kept {
            left: false,
            both: false,
            right: true,
        },
        (true, true) => Kept {
            left: true,
            both: true,
            right: true,
        },
    }
}

fn are_both(left: bool, right: bool) -> bool
    ensures { result ≡ (left && right) }
{
    left && right
}

// A rising list, as bits where these take less.
fn smaller(alloc: Global, docs: Vec<DocId>, num_docs: u32) -> Result<Docs, AllocError>
    ensures { (p : ℕ → Bool) → docs.items ≡ docs_where p num_docs
        → IfOk result (AreDocs num_docs p) }
{
    if docs.len() / 2 <= count_of_words(num_docs) {
        return Ok(Docs::List(docs));
    }
    let words = empty_words(alloc, num_docs)?;
    Ok(Docs::Bits(with_bits(words, &docs, true)))
}

// The documents of two lists, each turned over or not.
fn and_lists(
    alloc: Global,
    left: Vec<DocId>,
    left_turned: bool,
    right: Vec<DocId>,
    right_turned: bool,
    num_docs: u32,
) -> Result<DocSet, AllocError>
    ensures { (p q : ℕ → Bool) → left.items ≡ docs_where (λ d. turn_over left_turned (p d)) num_docs
        → right.items ≡ docs_where (λ d. turn_over right_turned (q d)) num_docs
        → IfOk result (IsSetOf num_docs (λ d. p d && q d)) }
{
    // No document, or all documents, are joined without a copy.
    if left.is_empty() {
        return Ok(empty_and(left, left_turned, right, right_turned));
    }
    if right.is_empty() {
        return Ok(empty_and(right, right_turned, left, left_turned));
    }
    let merged = merge_docs(alloc, &left, &right, kept_of(left_turned, right_turned))?;
    let docs = smaller(alloc, merged, num_docs)?;
    Ok(DocSet {
        docs,
        turned: are_both(left_turned, right_turned),
    })
}

// The documents of an empty list and of another one, each turned over or not.
fn empty_and(empty: Vec<DocId>, is_all: bool, docs: Vec<DocId>, to_turn: bool) -> DocSet
    ensures { (n : ℕ) (p q : ℕ → Bool) → empty.items ≡ []
        → empty.items ≡ docs_where (λ d. turn_over is_all (p d)) n
        → docs.items ≡ docs_where (λ d. turn_over to_turn (q d)) n
        → IsSetOf n (λ d. p d && q d) result }
{
    if is_all {
        return DocSet {
            docs: Docs::List(docs),
            turned: to_turn,
        };
    }
    DocSet {
        docs: Docs::List(empty),
        turned: false,
    }
}

// The documents of a list and of bits, each turned over or not.
fn and_mixed(
    alloc: Global,
    docs: Vec<DocId>,
    docs_turned: bool,
    words: Vec<u64>,
    words_turned: bool,
) -> Result<DocSet, AllocError>
    ensures { (n : ℕ) (p q : ℕ → Bool)
        → docs.items ≡ docs_where (λ d. turn_over docs_turned (p d)) n
        → AreBits n (λ d. turn_over words_turned (q d)) words.items
        → IfOk result (IsSetOf n (λ d. p d && q d)) }
{
    if docs_turned {
        return Ok(DocSet {
            docs: Docs::Bits(with_bits(words, &docs, words_turned)),
            turned: words_turned,
        });
    }
    let found = filter_docs(alloc, &docs, &words, words_turned)?;
    Ok(DocSet {
        docs: Docs::List(found),
        turned: false,
    })
}

// The documents of bits, each turned over or not.
fn and_bits(left: Vec<u64>, left_turned: bool, right: Vec<u64>, right_turned: bool) -> DocSet
    ensures { (n : ℕ) (p q : ℕ → Bool) → AreBits n (λ d. turn_over left_turned (p d)) left.items
        → AreBits n (λ d. turn_over right_turned (q d)) right.items
        → IsSetOf n (λ d. p d && q d) result }
{
    let mut left = turned_words(left, left_turned);
    let right = turned_words(right, right_turned);
    and_words(&mut left, &right);
    DocSet {
        docs: Docs::Bits(left),
        turned: false,
    }
}

// The same bits, turned over where they are to be.
fn turned_words(words: Vec<u64>, to_turn: bool) -> Vec<u64>
    ensures len { vec_len result ≡ vec_len words }
    ensures bits { (k : ℕ) → k < 64 * vec_len words →
        flag_at result.items k ≡ turn_over to_turn (flag_at words.items k) }
{
    let mut words = words;
    if to_turn {
        turn_words(&mut words);
    }
    words
}

// The documents of a list that is turned over or not.
fn list_of_list(
    alloc: Global,
    docs: Vec<DocId>,
    to_turn: bool,
    num_docs: u32,
) -> Result<Vec<DocId>, AllocError>
    ensures { (p : ℕ → Bool) → docs.items ≡ docs_where (λ d. turn_over to_turn (p d)) num_docs
        → IfOk result (λ found. found.items ≡ docs_where p num_docs) }
{
    if to_turn {
        return other_docs(alloc, &docs, num_docs);
    }
    Ok(docs)
}

// The documents of bits that are turned over or not.
fn list_of_bits(
    alloc: Global,
    words: Vec<u64>,
    to_turn: bool,
    num_docs: u32,
) -> Result<Vec<DocId>, AllocError>
    ensures { (p : ℕ → Bool) → AreBits num_docs (λ d. turn_over to_turn (p d)) words.items
        → IfOk result (λ found. found.items ≡ docs_where p num_docs) }
{
    let words = turned_words(words, to_turn);
    let docs = docs_of_words(alloc, &words, num_docs)?;
    Ok(docs)
}
