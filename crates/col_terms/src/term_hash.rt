//! The hash of a term.
ghost use Rattle.std.specs.Prelude.{◌≡◌};
ghost use Rattle.col_terms.specs.Hashing.{mixed, hash_of};

use crate::table::{HEAD_NUM_BYTES, padded_head};

// 2^64 over the golden ratio, made odd.
const MULTIPLIER: u64 = 11_400_714_819_323_198_485;

/// The hash of a term.
#[tactic(auto, unfolding(crate::specs::Hashing::hash_of))]
pub fn hash_of(term: &[u8]) -> u32
    ensures { result ≡ hash_of term.now }
{
    let mut hash = 0;
    for i in 0..term.len() / HEAD_NUM_BYTES {
        hash = mix(hash, padded_head(&term[i * HEAD_NUM_BYTES..]));
    }
    let last = term.len().saturating_sub(HEAD_NUM_BYTES);
    hash = mix(hash, padded_head(&term[last..]));
    (mix(hash, term.len() as u64) >> 32) as u32
}

// A number mixed into a hash.
#[inline]
#[tactic(auto, unfolding(crate::specs::Hashing::mixed))]
fn mix(hash: u64, word: u64) -> u64
    ensures { result ≡ mixed hash word }
{
    let product = (hash ^ word).wrapping_mul(MULTIPLIER);
    product ^ (product >> 32)
}
