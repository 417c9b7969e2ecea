//! The segments that have a term.
ghost use Rattle.std.specs.Prelude.{◌≡◌};

use crate::TermsWithSegmentOrd;
use std::marker::Model;

/// The segments that have a term, each with the term's ordinal there. Contracts see those that are
/// left.
#[derive(Drop)]
pub struct MatchingSegments<'a> {
    streams: &'a [TermsWithSegmentOrd<'a>],
    next: usize,
}

impl<'a> Model for MatchingSegments<'a> {
    ghost use Rattle.std.specs.Prelude.{List, ℕ, drop};
    ghost use Rattle.col_merge_terms.specs.Places.{places_at, AllStand};

    ghost Value = { List (ℕ × ℕ) };

    ghost view = { λ s. places_at (drop s.next s.streams.now) };

    ghost invariant = { λ s. AllStand (drop s.next s.streams.now) };
}

impl<'a> MatchingSegments<'a> {
    ghost use Rattle.col_merge_terms.specs.Places.{places_at, AllStand};

    // Those of walks that stand on one term.
    pub(crate) fn new(streams: &'a [TermsWithSegmentOrd<'a>]) -> MatchingSegments<'a>
        requires { AllStand streams.now }
        ensures { result ≡ places_at streams.now }
    {
        MatchingSegments { streams, next: 0 }
    }
}

impl<'a> Iterator for MatchingSegments<'a> {
    ghost use Rattle.std.specs.Iterator.{YieldsFirst, item_count};

    type Item = (usize, u64);

    ghost next_gives = { YieldsFirst (λ left. left) };

    ghost remaining = { item_count (λ left. left) };

    #[inline]
    fn next(&mut self) -> Option<(usize, u64)> {
        let stream = self.streams.get(self.next)?;
        self.next += 1;
        Some((stream.segment_ord, stream.terms.term_ord()))
    }
}
