//! The bytes of a dictionary.
ghost use Rattle.std.specs.Prelude.{◌≡◌, ◌+◌, ◌*◌, ◌<◌, ◌≤◌, Some, length, option_map, slice_get, slice_index, IfOk, IfErr};
ghost use Rattle.std.specs.Ordering.{nat_cmp};
ghost use Rattle.std.specs.Cmp.Lexicographic.{slice_cmp};
ghost use Rattle.col_common.specs.Reading.{IsBytes};
ghost use Rattle.col_model.specs.Dictionary.{terms};
ghost use Rattle.col_terms.specs.TermTable.{terms_of, IsTable, number_at, numbers_in, start_at, cut_whole, follows, head_of};
ghost use Rattle.col_terms.specs.Lookups.{IsAt, IsGapFor, IsFirstFrom, IsPrefixEnd};

use std::cmp::Ordering;

// How many bytes the count of terms takes, and the end of each.
const NUMBER_NUM_BYTES: usize = 4;

// How many bytes are compared at once.
pub const HEAD_NUM_BYTES: usize = 8;

/// The bytes of a dictionary without terms.
pub static EMPTY_TABLE: [u8; NUMBER_NUM_BYTES] = [0; NUMBER_NUM_BYTES];

/// How many terms the bytes stand for, where they stand for any list.
pub fn count_terms(bytes: &[u8]) -> Option<u32>
    ensures { result ≡ option_map length (terms bytes.now) }
{
    if bytes.len() < NUMBER_NUM_BYTES {
        return None;
    }
    let num_terms = number_at(bytes, 0);
    let rest = &bytes[NUMBER_NUM_BYTES..];
    let ends_len = num_terms as usize * NUMBER_NUM_BYTES;
    if ends_len > rest.len() {
        return None;
    }
    if !are_terms(num_terms, rest, &rest[ends_len..]) {
        return None;
    }
    Some(num_terms)
}

// Whether so many ends cut the text into terms in strict order, with nothing left.
fn are_terms(num_terms: u32, ends: &[u8], text: &[u8]) -> bool
    requires { 4 * num_terms ≤ length ends.now }
    ensures { result ≡ cut_whole (numbers_in num_terms ends.now) text.now }
{
    let mut start = 0;
    let mut last: Option<&[u8]> = None;
    for i in 0..num_terms {
        let end = number_at(ends, i as usize * NUMBER_NUM_BYTES) as usize;
        if end < start {
            return false;
        }
        if end > text.len() {
            return false;
        }
        let term = &text[start..end];
        if !follows(last, term) {
            return false;
        }
        start = end;
        last = Some(term);
    }
    start == text.len()
}

// Whether a term may stand behind the last one, if there is one.
fn follows<'a>(last: Option<&'a [u8]>, term: &'a [u8]) -> bool
    ensures { result ≡ follows (option_map (λ t. t.now) last.entry) term.now }
{
    match last {
        Some(last) => compare(last, term).is_lt(),
        None => true,
    }
}

// The order of two terms. Where the first bytes differ as one number, that decides.
#[inline]
fn compare<'a>(left: &'a [u8], right: &'a [u8]) -> Ordering
    ensures { result ≡ slice_cmp nat_cmp left.now right.now }
{
    if left.len() >= HEAD_NUM_BYTES && right.len() >= HEAD_NUM_BYTES {
        let (left_head, right_head) = (head(left), head(right));
        if left_head != right_head {
            return left_head.cmp(&right_head);
        }
    }
    left.cmp(&right)
}

// The first bytes as a number, the highest first.
#[inline]
fn head(bytes: &[u8]) -> u64
    requires { HEAD_NUM_BYTES ≤ length bytes.now }
    ensures number { result ≡ head_of bytes.now }
    ensures bytes { IsBytes bytes.now }
{
    let b = bytes;
    u64::from_be_bytes([b[0], b[1], b[2], b[3], b[4], b[5], b[6], b[7]])
}

/// The first bytes as a number, where those past the end count as 0.
#[inline]
pub fn padded_head(bytes: &[u8]) -> u64
    ensures number { result ≡ head_of bytes.now }
    ensures bytes { IsBytes bytes.now }
{
    if bytes.len() >= HEAD_NUM_BYTES {
        return head(bytes);
    }
    let b = bytes;
    u64::from_be_bytes([
        byte_at(b, 0),
        byte_at(b, 1),
        byte_at(b, 2),
        byte_at(b, 3),
        byte_at(b, 4),
        byte_at(b, 5),
        byte_at(b, 6),
        byte_at(b, 7),
    ])
}

// A byte, or 0 past the end.
#[inline]
fn byte_at(bytes: &[u8], at: usize) -> u8
    ensures { result ≡ slice_index bytes.now at }
{
    bytes.get(at).copied().unwrap_or(0)
}

// The number in four bytes, the lowest first.
#[inline]
#[tactic(auto, unfolding(crate::specs::TermTable::number_at))]
fn number_at(bytes: &[u8], at: usize) -> u32
    requires { at + 4 ≤ length bytes.now }
    ensures { result ≡ number_at bytes.now at }
{
    u32::from_le_bytes([bytes[at], bytes[at + 1], bytes[at + 2], bytes[at + 3]])
}

// Where the term of an ordinal starts in the text, which is where the one before ends.
#[inline]
fn start_at(bytes: &[u8], ord: u32) -> u32
    requires { 4 * ord + 4 ≤ length bytes.now }
    ensures { result ≡ start_at bytes.now ord }
{
    if ord == 0 {
        return 0;
    }
    number_at(bytes, ord as usize * NUMBER_NUM_BYTES)
}

/// The term of an ordinal.
#[inline]
pub fn term_in(bytes: &[u8], num_terms: u32, ord: u32) -> &[u8]
    requires table { IsTable bytes.now num_terms }
    requires within { ord < num_terms }
    ensures { slice_get (terms_of bytes.now) ord ≡ Some result.now }
{
    let start = start_at(bytes, ord) as usize;
    let end = start_at(bytes, ord + 1) as usize;
    let text = (num_terms as usize + 1) * NUMBER_NUM_BYTES;
    &bytes[text + start..text + end]
}

/// Where a key is among the terms, or where it would be, by halves.
pub fn search(bytes: &[u8], num_terms: u32, key: &[u8]) -> Result<u32, u32>
    requires { IsTable bytes.now num_terms }
    ensures found { IfOk result (IsAt (terms_of bytes.now) key.now) }
    ensures absent { IfErr result (IsGapFor (terms_of bytes.now) key.now) }
{
    let mut low = 0;
    let mut high = num_terms;
    while low < high {
        let middle = low + (high - low) / 2;
        match compare(term_in(bytes, num_terms, middle), key) {
            Ordering::Less => low = middle + 1,
            Ordering::Equal => return Ok(middle),
            Ordering::Greater => high = middle,
        }
    }
    Err(low)
}

/// Where the terms that aren't before a key start.
pub fn first_from(bytes: &[u8], num_terms: u32, key: &[u8]) -> u32
    requires { IsTable bytes.now num_terms }
    ensures { IsFirstFrom (terms_of bytes.now) key.now result }
{
    match search(bytes, num_terms, key) {
        Ok(ord) => ord,
        Err(ord) => ord,
    }
}

/// Where the terms with a prefix end, by halves.
pub fn prefix_end(bytes: &[u8], num_terms: u32, start: u32, prefix: &[u8]) -> u32
    requires table { IsTable bytes.now num_terms }
    requires first { IsFirstFrom (terms_of bytes.now) prefix.now start }
    ensures { IsPrefixEnd (terms_of bytes.now) prefix.now start result }
{
    let mut low = start;
    let mut high = num_terms;
    while low < high {
        let middle = low + (high - low) / 2;
        if term_in(bytes, num_terms, middle).starts_with(prefix) {
            low = middle + 1;
        } else {
            high = middle;
        }
    }
    low
}
