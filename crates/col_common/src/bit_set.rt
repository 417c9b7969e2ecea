//! Sets of numbers below a bound.
ghost use Rattle.std.specs.Prelude.{◌≡◌, ◌<◌, true, false, length, replicate, slice_set, slice_index_or};
ghost use Rattle.std.specs.Prelude.{MatchOption, IfOk};
ghost use Rattle.col_common.specs.Flags.{count_set, IsFirstMember};

use crate::{Iterable, Walk};
use std::alloc::{AllocError, Global};
use std::marker::Model;

/// The numbers of a word.
const WORD_BITS: u64 = 64;

/// A set of numbers below a bound. Contracts see a flag for each of these numbers.
#[derive(Drop)]
pub struct BitSet {
    words: Vec<u64>,
    max_value: u32,
    len: usize,
}

impl Model for BitSet {
    ghost use Rattle.std.specs.Prelude.{List, Bool};
    ghost use Rattle.col_common.specs.Flags.{flags_of, CountsFlags};

    ghost Value = { List Bool };

    ghost view = { λ s. flags_of s.words.items s.max_value };

    ghost invariant = { λ s. CountsFlags s.words.items s.max_value s.len };
}

impl BitSet {
    /// The empty set of numbers below a bound.
    pub fn with_max_value(alloc: Global, max_value: u32) -> Result<BitSet, AllocError>
        ensures { IfOk result (λ set. set ≡ replicate max_value false) }
    {
        let count = u64::from(max_value).div_ceil(WORD_BITS);
        let words = vec![in alloc; 0; count as usize]?;
        Ok(BitSet {
            words,
            max_value,
            len: 0,
        })
    }

    /// Puts a number in.
    pub fn insert(&mut self, el: u32)
        requires { el < length self.old }
        ensures { self.new ≡ slice_set self.old el true }
    {
        if !self.contains(el) {
            let at = u64::from(el);
            self.words[(at / WORD_BITS) as usize] |= 1 << (at % WORD_BITS);
            self.len += 1;
        }
    }

    /// Whether a number is in.
    pub fn contains(&self, el: u32) -> bool
        requires { el < length self.now }
        ensures { result ≡ slice_index_or self.now el false }
    {
        let at = u64::from(el);
        (self.words[(at / WORD_BITS) as usize] >> (at % WORD_BITS)) & 1 == 1
    }

    /// How many numbers are in.
    pub fn len(&self) -> usize
        ensures { result ≡ count_set self.now }
    {
        self.len
    }

    /// The numbers that are in, ascending.
    pub fn iter(&self) -> BitSetIter<'_>
        ensures { result ≡ self.now }
    {
        BitSetIter { set: self }
    }

    // The first number from a place on that is in.
    fn first_from(&self, from: u64) -> Option<u32>
        ensures { IsFirstMember self.now from result }
    {
        let max_value = u64::from(self.max_value);
        let mut at = from;
        while at < max_value {
            let word = self.words[(at / WORD_BITS) as usize] >> (at % WORD_BITS);
            if word != 0 {
                let found = at + u64::from(word.trailing_zeros());
                if found < max_value {
                    return Some(found as u32);
                }
                return None;
            }
            at = (at / WORD_BITS + 1) * WORD_BITS;
        }
        None
    }
}

/// The numbers of a set, ascending. A walk's place is the number from which on it goes on.
#[derive(Drop)]
pub struct BitSetIter<'a> {
    set: &'a BitSet,
}

impl<'a> Model for BitSetIter<'a> {
    ghost use Rattle.std.specs.Prelude.{List, Bool};

    ghost Value = { List Bool };

    ghost view = { λ s. s.set.now };
}

impl Iterable<u32> for BitSetIter<'_> {
    ghost use Rattle.std.specs.Prelude.{length, ◌≤◌};
    ghost use Rattle.col_common.specs.Flags.{members, members_from};

    ghost items = { λ flags. members flags };

    ghost stands = { λ flags w. w.place ≤ length flags };

    ghost left = { λ flags w. members_from flags w.place };

    fn walk(&self) -> Walk {
        Walk::default()
    }

    fn next(&self, at: &mut Walk) -> Option<u32> {
        let found = self.set.first_from(at.place)?;
        at.place = u64::from(found) + 1;
        Some(found)
    }
}
