//! Walks over the terms of segments, in an order in which a heap gives the least term first.
ghost use Rattle.std.specs.Prelude.{◌==◌, nat_eq};
ghost use Rattle.std.proofs.Common.{rules};
ghost use Rattle.std.specs.Cmp.{partial_order_from_own_ties};
ghost use Rattle.std.specs.Cmp.Lexicographic.{slice_cmp, pointwise};
ghost use Rattle.std.specs.Cmp.Rules.{comparing};
ghost use Rattle.std.specs.Ordering.{nat_cmp, on, flip_args, then_cmp, eq_of_both, as_partial_cmp};
ghost use Rattle.col_merge_terms.specs.Keys.{key_at};

use col_terms::Streamer;
use std::cmp::Ordering;

/// A walk over the terms of a segment. The walk with the least term is the greatest, and of those
/// with this term the one of the first segment; where a walk stands on no term, its term counts as
/// empty.
#[derive(Drop)]
pub struct TermsWithSegmentOrd<'a> {
    /// The walk.
    pub terms: Streamer<'a>,
    /// Which segment it is.
    pub segment_ord: usize,
}

impl<'a> PartialEq for TermsWithSegmentOrd<'a> {
    ghost eq = { eq_of_both (on (λ s. key_at s.terms) (pointwise nat_eq))
        (on (λ s. s.segment_ord) nat_eq) };

    ghost laws = { Prim.search (comparing, rules) };

    fn eq(&self, other: &TermsWithSegmentOrd<'a>) -> bool {
        self.terms.key() == other.terms.key() && self.segment_ord == other.segment_ord
    }
}

impl<'a> Eq for TermsWithSegmentOrd<'a> {
    ghost laws = { Prim.search (comparing, rules) };
}

impl<'a> PartialOrd for TermsWithSegmentOrd<'a> {
    ghost partial_cmp = { as_partial_cmp (flip_args (then_cmp
        (on (λ s. key_at s.terms) (slice_cmp nat_cmp)) (on (λ s. s.segment_ord) nat_cmp))) };

    ghost laws = { partial_order_from_own_ties
        (Prim.search (comparing, rules)) (Prim.search (comparing, rules)) };

    fn partial_cmp(&self, other: &TermsWithSegmentOrd<'a>) -> Option<Ordering> {
        Some(self.cmp(other))
    }
}

impl<'a> Ord for TermsWithSegmentOrd<'a> {
    ghost cmp = { flip_args (then_cmp
        (on (λ s. key_at s.terms) (slice_cmp nat_cmp)) (on (λ s. s.segment_ord) nat_cmp)) };

    ghost total = { Prim.search (comparing, rules) };

    ghost matches_partial_cmp = { Prim.search (comparing, rules) };

    ghost matches_eq = { Prim.search (comparing, rules) };

    fn cmp(&self, other: &TermsWithSegmentOrd<'a>) -> Ordering {
        let by_key = other.terms.key().cmp(&self.terms.key());
        by_key.then(other.segment_ord.cmp(&self.segment_ord))
    }
}
