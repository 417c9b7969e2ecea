//! Walks over terms in order.
ghost use Rattle.std.specs.Prelude.{◌≡◌, [], map, true, is_some, IsSome, IfSome};
ghost use Rattle.std.specs.Option.{option_map_or};
ghost use Rattle.col_common.specs.Ascending.{is_ascending};
ghost use Rattle.col_terms.specs.Streams.{stream_of, stepped};

use crate::table::{EMPTY_TABLE, term_in};
use std::marker::Model;

/// A walk over terms with their ordinals, in order.
#[derive(Drop)]
pub struct Streamer<'a> {
    bytes: &'a [u8],
    num_terms: u32,
    next_ord: u32,
    end_ord: u32,
    key: &'a [u8],
    is_on_term: bool,
}

impl<'a> Model for Streamer<'a> {
    ghost use Rattle.col_terms.specs.Streams.{TermStream, walk_between, IsWalk};

    ghost Value = { TermStream };

    ghost view = { λ s. walk_between s.bytes.now s.next_ord s.end_ord s.is_on_term s.key.now };

    ghost invariant = { λ s.
        IsWalk s.bytes.now s.num_terms s.next_ord s.end_ord s.is_on_term s.key.now };
}

impl<'a> Streamer<'a> {
    ghost use Rattle.std.specs.Prelude.{◌<◌, ◌≤◌, slice_range};
    ghost use Rattle.col_terms.specs.TermTable.{terms_of, IsTable};
    ghost use Rattle.col_terms.specs.Streams.{numbered};

    /// A walk over nothing.
    pub fn empty() -> Streamer<'a>
        ensures { result ≡ stream_of [] }
    {
        Streamer::between(&EMPTY_TABLE, 0, 0, 0)
    }

    // A walk from the term of an ordinal up to that of another.
    pub(crate) fn between(
        bytes: &'a [u8],
        num_terms: u32,
        next_ord: u32,
        end_ord: u32,
    ) -> Streamer<'a>
        requires table { IsTable bytes.now num_terms }
        requires ordered { next_ord ≤ end_ord }
        requires within { end_ord ≤ num_terms }
        ensures { result
            ≡ stream_of (slice_range (numbered (terms_of bytes.now)) next_ord end_ord) }
    {
        Streamer {
            bytes,
            num_terms,
            next_ord,
            end_ord,
            key: &[],
            is_on_term: false,
        }
    }

    /// Goes on to the next term, if there is one.
    pub fn advance(&mut self) -> bool
        ensures term { self.new ≡ stepped self.old.left }
        ensures found { result ≡ is_some self.new.current }
    {
        if self.next_ord == self.end_ord {
            self.key = &[];
            self.is_on_term = false;
            return false;
        }
        self.key = term_in(self.bytes, self.num_terms, self.next_ord);
        self.next_ord += 1;
        self.is_on_term = true;
        true
    }

    /// The term where the walk stands; the empty key before the first term and behind the last.
    pub fn key(&self) -> &[u8]
        ensures { result.now ≡ option_map_or (λ p. p.1) self.now.current [] }
    {
        self.key
    }

    /// That the terms that are still to come ascend.
    pub fn terms_ascend(&self)
        ensures { is_ascending (map (λ p. p.1) self.now.left) ≡ true }
    {
        let _ = &self.bytes;
    }

    /// The ordinal of the term where the walk stands.
    pub fn term_ord(&self) -> u64
        requires { IsSome self.now.current }
        ensures { IfSome self.now.current (λ p. result ≡ p.0) }
    {
        u64::from(self.next_ord) - 1
    }
}
