//! Laws about dictionaries, each the contract of a call that does nothing.
ghost use Rattle.std.specs.Ordering.{nat_cmp};
ghost use Rattle.col_common.specs.Laws.{ComparesBy, DefaultIs, EqualAsCompared, EqualHashAlike};
ghost use Rattle.col_terms.specs.Laws.{
  DictionariesAreReadBack,
  OrdinalsAreInOrder,
  TermsAreThoseGiven,
};

use crate::{OrderedId, UnorderedId};

/// Ordinals have the order of their terms.
pub fn ordinals_have_the_order_of_their_terms()
    ensures { OrdinalsAreInOrder }
{}

/// The bytes that are written of terms in order stand for them.
pub fn dictionaries_are_read_back()
    ensures { DictionariesAreReadBack }
{}

/// The terms in order are exactly those that a builder was given, and the ordinal of each id is
/// the place of its term.
pub fn terms_are_those_given()
    ensures { TermsAreThoseGiven }
{}

/// Ids compare as their numbers, equality and hashes agree, and the default is 0.
pub fn unordered_ids_compare_as_their_numbers()
    ensures order { ComparesBy (λ (x y : UnorderedId). nat_cmp x.0 y.0)
        ⟦<UnorderedId as PartialOrd>⟧.partial_cmp ⟦<UnorderedId as Ord>⟧.cmp }
    ensures equality { EqualAsCompared
        ⟦<UnorderedId as PartialEq>⟧.eq ⟦<UnorderedId as Ord>⟧.cmp }
    ensures hash { EqualHashAlike
        ⟦<UnorderedId as PartialEq>⟧.eq ⟦<UnorderedId as std::hash::Hash>⟧.hash_input }
    ensures default { DefaultIs (record { 0 = 0 }) ⟦<UnorderedId as Default>⟧.is_default }
{}

/// Ordinals compare as their numbers, equality and hashes agree, and the default is 0.
pub fn ordered_ids_compare_as_their_numbers()
    ensures order { ComparesBy (λ (x y : OrderedId). nat_cmp x.0 y.0)
        ⟦<OrderedId as PartialOrd>⟧.partial_cmp ⟦<OrderedId as Ord>⟧.cmp }
    ensures equality { EqualAsCompared
        ⟦<OrderedId as PartialEq>⟧.eq ⟦<OrderedId as Ord>⟧.cmp }
    ensures hash { EqualHashAlike
        ⟦<OrderedId as PartialEq>⟧.eq ⟦<OrderedId as std::hash::Hash>⟧.hash_input }
    ensures default { DefaultIs (record { 0 = 0 }) ⟦<OrderedId as Default>⟧.is_default }
{}
