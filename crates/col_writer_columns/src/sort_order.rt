//! Documents in the order of their first values.
ghost use Rattle.std.specs.Prelude.{◌≡◌, ◌<◌, ℕ, [], true, nat_lt, nat_le, false, ◌^◌, length, map, get_or, IfOk};
ghost use Rattle.std.specs.List.{list_all, list_any, zip, range_with_len};
ghost use Rattle.col_writer_columns.specs.Answers.{Gives};
ghost use Rattle.col_writer_columns.specs.Sorting.{docs_after, docs_by_keys, first_key, with_first, docs_by_number, turned};

use crate::sort_keys::SortKeys;
use col_common::{ColumnarError, DocId, RowId};
use col_writer_rows::DocList;
use std::alloc::{AllocError, Global};

/// Documents in an order, or why there is none.
pub type SortedDocs = Result<Vec<DocId>, ColumnarError>;

// The key of a document without a value.
const NO_KEY: u128 = 0;

/// The documents 0 to `num_docs` - 1 by the keys of their first values, or by falling ones. Those
/// without a value come first, or last where keys fall, and equal ones stay as they stand.
pub(crate) fn sort_docs<K: SortKeys>(
    alloc: Global,
    docs: &DocList,
    keys: &K,
    num_docs: RowId,
    reversed: bool,
) -> SortedDocs
    requires { length docs.now ≡ length (K.keys keys.now) }
    ensures { Gives (λ v. v.items) result
        (docs_after (zip docs.now (K.keys keys.now)) num_docs reversed) }
{
    if is_past(docs, num_docs) {
        return Err(ColumnarError::DocOutOfRange);
    }
    let firsts = first_keys(alloc, docs, keys, num_docs)?;
    Ok(docs_by_number(alloc, &firsts, reversed)?)
}

/// Whether a document isn't below a number.
pub fn is_past(docs: &DocList, num_docs: RowId) -> bool
    ensures { result ≡ list_any (λ d. nat_le num_docs d) docs.now }
{
    let len = docs.len();
    if len == 0 {
        return false;
    }
    docs.never_fall();
    num_docs <= docs.get(len as usize - 1)
}

// The key of each document's first value.
fn first_keys<K: SortKeys>(
    alloc: Global,
    docs: &DocList,
    keys: &K,
    num_docs: RowId,
) -> Result<Vec<u128>, AllocError>
    requires many { length docs.now ≡ length (K.keys keys.now) }
    requires below { list_any (λ d. nat_le num_docs d) docs.now ≡ false }
    ensures { IfOk result (λ v. v.items
        ≡ map (first_key (zip docs.now (K.keys keys.now))) (range_with_len 0 num_docs)) }
{
    let mut firsts = vec![in alloc; NO_KEY; num_docs as usize]?;
    put_firsts(&mut firsts, docs, keys, num_docs);
    Ok(firsts)
}

// Puts the key of each document's first value where no key is.
fn put_firsts<K: SortKeys>(firsts: &mut [u128], docs: &DocList, keys: &K, num_docs: RowId)
    requires none { firsts.old ≡ map (first_key []) (range_with_len 0 num_docs) }
    requires many { length docs.now ≡ length (K.keys keys.now) }
    requires below { list_any (λ d. nat_le num_docs d) docs.now ≡ false }
    ensures { firsts.new
        ≡ map (first_key (zip docs.now (K.keys keys.now))) (range_with_len 0 num_docs) }
{
    for place in 0..docs.len() as usize {
        put_first(firsts, docs.get(place), keys.key(place));
    }
}

// Puts the key of a document's first value.
#[inline(always)]
fn put_first(firsts: &mut [u128], doc: DocId, key: u128)
    requires { doc < length firsts.old }
    ensures { firsts.new ≡ with_first firsts.old doc key }
{
    if firsts[doc as usize] == NO_KEY {
        firsts[doc as usize] = key;
    }
}

// The places of a list by their numbers, or by falling ones; equal ones stay as they stand.
fn docs_by_number(alloc: Global, firsts: &[u128], reversed: bool) -> Result<Vec<DocId>, AllocError>
    requires { length firsts.now < 2 ^ 32 }
    ensures { IfOk result (λ v. v.items ≡ docs_by_number reversed firsts.now) }
{
    let mut pairs = numbered(alloc, firsts, reversed)?;
    pairs.sort_unstable();
    docs_of(alloc, &pairs)
}

// Each place behind its number, or behind the place of that from the greatest one down.
fn numbered(
    alloc: Global,
    firsts: &[u128],
    reversed: bool,
) -> Result<Vec<(u128, DocId)>, AllocError>
    requires { length firsts.now < 2 ^ 32 }
    ensures pairs { IfOk result (λ v. v.items
        ≡ map (λ d. (turned reversed (get_or firsts.now d 0), d))
        (range_with_len 0 (length firsts.now))) }
    ensures fit { (k : ℕ) → get_or firsts.now k 0 < 2 ^ 128 }
{
    let mut pairs = Vec::with_capacity(alloc, firsts.len())?;
    for doc in 0..firsts.len() as u32 {
        pairs.push((turned(reversed, firsts[doc as usize]), doc))?;
    }
    Ok(pairs)
}

// The documents of pairs.
fn docs_of(alloc: Global, pairs: &[(u128, DocId)]) -> Result<Vec<DocId>, AllocError>
    ensures { IfOk result (λ v. v.items ≡ map (λ p. p.1) pairs.now) }
{
    pairs.iter().map(|pair| pair.1).collect(alloc)
}

// A number, or its place from the greatest one down.
#[inline(always)]
fn turned(reversed: bool, number: u128) -> u128
    ensures { result ≡ turned reversed number }
{
    if reversed { u128::MAX - number } else { number }
}
