//! Laws of gaps, and of kinds of lists.
ghost use Rattle.std.specs.Prelude.{◌≡◌, ◌-◌, Some};
ghost use Rattle.std.specs.Ordering.{nat_cmp, ordering_then, is_eq};
ghost use Rattle.std.specs.declared.cmp.Ordering.TheVariants.{Equal};
ghost use Rattle.col_common.specs.Laws.{ComparesBy, EqualAsCompared};

use crate::{BlankRange, U128FastFieldCodecType};
use std::cmp::Ordering;

/// Gaps are ordered by size, and those of one size by start.
pub fn gaps_are_ordered(left: &BlankRange, right: &BlankRange) -> Ordering
    ensures { result ≡ ordering_then
        (nat_cmp (left.now.1 - left.now.0) (right.now.1 - right.now.0))
        (nat_cmp left.now.0 right.now.0) }
{
    left.cmp(right)
}

/// Any two gaps compare, in the same order.
pub fn gaps_always_compare(left: &BlankRange, right: &BlankRange) -> Option<Ordering>
    ensures { result ≡ Some (ordering_then
        (nat_cmp (left.now.1 - left.now.0) (right.now.1 - right.now.0))
        (nat_cmp left.now.0 right.now.0)) }
{
    left.partial_cmp(right)
}

/// Gaps are equal where neither comes before the other.
pub fn equal_gaps_tie(left: &BlankRange, right: &BlankRange) -> bool
    ensures { result ≡ is_eq (ordering_then
        (nat_cmp (left.now.1 - left.now.0) (right.now.1 - right.now.0))
        (nat_cmp left.now.0 right.now.0)) }
{
    left == right
}

/// There is one kind of list: it compares as itself, and equality agrees.
pub fn kinds_compare_as_one()
    ensures order { ComparesBy (λ _ _. Equal)
        ⟦<U128FastFieldCodecType as PartialOrd>⟧.partial_cmp
        ⟦<U128FastFieldCodecType as Ord>⟧.cmp }
    ensures equality { EqualAsCompared ⟦<U128FastFieldCodecType as PartialEq>⟧.eq
        ⟦<U128FastFieldCodecType as Ord>⟧.cmp }
{}
