//! Values as keys, by which documents are put in order.
ghost use Rattle.std.specs.Prelude.{◌≡◌, ◌<◌, ℕ, List, Some, true, length, slice_get};
ghost use Rattle.col_common.specs.Ascending.{are_below};
ghost use Rattle.col_types.specs.Kinds.{numerical_kind_of};
ghost use Rattle.col_writer_columns.specs.Sorting.{number_key, number_keys, time_keys, text_keys};

use crate::TypeList;
use col_common::SIGN_BIT;
use col_terms::{TermIdMapping, UnorderedId};
use col_types::NumericalType;
use std::marker::Model;

/// A key for each value of a column, in their order and above 0.
pub(crate) trait SortKeys {
    /// The keys.
    ghost keys: { Self → List ℕ };

    /// The key of the value at a place.
    fn key(&self, place: usize) -> u128
        requires { place < length (keys self.now) }
        ensures key { slice_get (keys self.now) place ≡ Some result }
        ensures above { 0 < result };
}

/// Numbers of two types, compared as whole numbers.
#[derive(Drop)]
pub(crate) struct NumberKeys<'a> {
    types: &'a TypeList,
    codes: &'a [u64],
}

impl<'a> Model for NumberKeys<'a> {
    ghost use Rattle.std.specs.Prelude.{◌≡◌, List, ℕ, length};
    ghost use Rattle.col_writer_columns.specs.Sorting.{number_keys};

    ghost Value = { List ℕ };

    ghost view = { λ k. number_keys k.types.now k.codes.now };

    ghost invariant = { λ k. length k.types.now ≡ length k.codes.now };
}

impl<'a> NumberKeys<'a> {
    pub(crate) fn new(types: &'a TypeList, codes: &'a [u64]) -> NumberKeys<'a>
        requires { length types.now ≡ length codes.now }
        ensures { result ≡ number_keys types.now codes.now }
    {
        NumberKeys { types, codes }
    }
}

impl<'a> SortKeys for NumberKeys<'a> {
    ghost keys = { λ k. k };

    fn key(&self, place: usize) -> u128 {
        number_key_at(self.types, self.codes, place)
    }
}

// The key of the number at a place.
fn number_key_at(types: &TypeList, codes: &[u64], place: usize) -> u128
    requires many { length types.now ≡ length codes.now }
    requires within { place < length codes.now }
    ensures key { slice_get (number_keys types.now codes.now) place ≡ Some result }
    ensures above { 0 < result }
{
    number_key(types.get(place), codes[place])
}

// The key of a number that has a type and a code.
fn number_key(numerical_type: NumericalType, code: u64) -> u128
    ensures key { result ≡ number_key (numerical_kind_of numerical_type) code }
    ensures above { 0 < result }
{
    match numerical_type {
        NumericalType::I64 => u128::from(code) + 1,
        NumericalType::U64 => { u128::from(code.wrapping_add(SIGN_BIT)) + u128::from(SIGN_BIT) + 1 }
    }
}

/// Points in time, by their codes.
#[derive(Drop)]
pub(crate) struct TimeKeys<'a> {
    codes: &'a [u64],
}

impl<'a> Model for TimeKeys<'a> {
    ghost use Rattle.std.specs.Prelude.{List, ℕ};
    ghost use Rattle.col_writer_columns.specs.Sorting.{time_keys};

    ghost Value = { List ℕ };

    ghost view = { λ k. time_keys k.codes.now };
}

impl<'a> TimeKeys<'a> {
    pub(crate) fn new(codes: &'a [u64]) -> TimeKeys<'a>
        ensures { result ≡ time_keys codes.now }
    {
        TimeKeys { codes }
    }
}

impl<'a> SortKeys for TimeKeys<'a> {
    ghost keys = { λ k. k };

    fn key(&self, place: usize) -> u128 {
        time_key_at(self.codes, place)
    }
}

// The key of the point in time at a place.
fn time_key_at(codes: &[u64], place: usize) -> u128
    requires { place < length codes.now }
    ensures key { slice_get (time_keys codes.now) place ≡ Some result }
    ensures above { 0 < result }
{
    u128::from(codes[place]) + 1
}

/// Texts, by the ordinals of their terms.
#[derive(Drop)]
pub(crate) struct TextKeys<'a> {
    ids: &'a [u32],
    mapping: &'a TermIdMapping,
}

impl<'a> Model for TextKeys<'a> {
    ghost use Rattle.std.specs.Prelude.{◌≡◌, List, ℕ, true, length};
    ghost use Rattle.col_common.specs.Ascending.{are_below};
    ghost use Rattle.col_writer_columns.specs.Sorting.{text_keys};

    ghost Value = { List ℕ };

    ghost view = { λ k. text_keys k.mapping.now k.ids.now };

    ghost invariant = { λ k.
        are_below (length k.mapping.now) k.ids.now ≡ true };
}

impl<'a> TextKeys<'a> {
    pub(crate) fn new(ids: &'a [u32], mapping: &'a TermIdMapping) -> TextKeys<'a>
        requires { are_below (length mapping.now) ids.now ≡ true }
        ensures { result ≡ text_keys mapping.now ids.now }
    {
        TextKeys { ids, mapping }
    }
}

impl<'a> SortKeys for TextKeys<'a> {
    ghost keys = { λ k. k };

    fn key(&self, place: usize) -> u128 {
        text_key_at(self.mapping, self.ids, place)
    }
}

// The key of the text at a place.
fn text_key_at(mapping: &TermIdMapping, ids: &[u32], place: usize) -> u128
    requires known { are_below (length mapping.now) ids.now ≡ true }
    requires within { place < length ids.now }
    ensures key { slice_get (text_keys mapping.now ids.now) place ≡ Some result }
    ensures above { 0 < result }
{
    u128::from(mapping.to_ord(UnorderedId(ids[place])).0) + 1
}
