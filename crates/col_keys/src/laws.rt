//! Laws of keys and categories, each the contract of a call that does nothing.
ghost use Rattle.std.specs.Prelude.{◌≡◌};
ghost use Rattle.std.specs.Ordering.{nat_cmp};
ghost use Rattle.col_common.specs.Laws.{ComparesBy, EqualAsCompared, EqualHashAlike};
ghost use Rattle.col_keys.specs.Categories.{place_of};
ghost use Rattle.col_keys.specs.Laws.{KeysCompareByName};

use crate::column_type_category::ColumnTypeCategory;
use std::hash::Hash;

/// Categories compare as their places, and equality and hashes agree.
pub fn categories_compare_as_their_places()
    ensures order { ComparesBy (λ a b. nat_cmp (place_of a) (place_of b))
        ⟦<ColumnTypeCategory as PartialOrd>⟧.partial_cmp ⟦<ColumnTypeCategory as Ord>⟧.cmp }
    ensures equality { EqualAsCompared
        ⟦<ColumnTypeCategory as PartialEq>⟧.eq ⟦<ColumnTypeCategory as Ord>⟧.cmp }
    ensures hash { EqualHashAlike
        ⟦<ColumnTypeCategory as PartialEq>⟧.eq ⟦<ColumnTypeCategory as Hash>⟧.hash_input }
{}

/// The bytes of keys compare by name, then by the type's code.
pub fn keys_compare_by_name_then_code()
    ensures { KeysCompareByName }
{}
