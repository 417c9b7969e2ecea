//! Laws of types and cells, each the contract of a call that does nothing.
ghost use Rattle.std.specs.Prelude.{◌≡◌, true};
ghost use Rattle.std.specs.Ordering.{nat_cmp};
ghost use Rattle.col_common.specs.Laws.{ComparesBy, EqualAsCompared, EqualHashAlike, DefaultIs};
ghost use Rattle.col_model.specs.AddressList.{values128};
ghost use Rattle.col_model.specs.ColumnType.{same_type};
ghost use Rattle.col_model.specs.U64List.{values64};
ghost use Rattle.col_types.specs.Kinds.{kind_of, code_of};
ghost use Rattle.col_types.specs.Laws.{LieBetweenAlike, AcceptedFit};
ghost use Rattle.col_types.specs.Stored.{IsStoredAs, DefaultIsZero};
ghost use Rattle.col_types.specs.declared.numerical_type.NumericalType.TheVariants.{I64};

use crate::{ColumnType, HasAssociatedColumnType, NumericalType, StoredAsU64, StoredAsU128};
use col_common::ByteCount;
use std::hash::Hash;

/// Column types compare as their codes, and are equal as the definitions have it; equality and
/// hashes agree.
pub fn column_types_compare_as_their_codes()
    ensures order { ComparesBy (λ a b. nat_cmp (code_of a) (code_of b))
        ⟦<ColumnType as PartialOrd>⟧.partial_cmp ⟦<ColumnType as Ord>⟧.cmp }
    ensures equality { EqualAsCompared
        ⟦<ColumnType as PartialEq>⟧.eq ⟦<ColumnType as Ord>⟧.cmp }
    ensures same { (a b : ColumnType) →
        ⟦<ColumnType as PartialEq>⟧.eq a b ≡ same_type (kind_of a) (kind_of b) }
    ensures hash { EqualHashAlike
        ⟦<ColumnType as PartialEq>⟧.eq ⟦<ColumnType as Hash>⟧.hash_input }
{}

/// Equal numerical types are hashed alike, and the default is I64.
pub fn equal_numerical_types_hash_alike()
    ensures hash { EqualHashAlike
        ⟦<NumericalType as PartialEq>⟧.eq ⟦<NumericalType as Hash>⟧.hash_input }
    ensures default { DefaultIs I64 ⟦<NumericalType as Default>⟧.is_default }
{}

/// Counts of bytes compare as their numbers, equality agrees, and the default is 0.
pub fn byte_counts_compare_as_their_numbers()
    ensures order { ComparesBy nat_cmp
        ⟦<ByteCount as PartialOrd>⟧.partial_cmp ⟦<ByteCount as Ord>⟧.cmp }
    ensures equality { EqualAsCompared ⟦<ByteCount as PartialEq>⟧.eq ⟦<ByteCount as Ord>⟧.cmp }
    ensures default { DefaultIs 0 ⟦<ByteCount as Default>⟧.is_default }
{}

/// Numbers that may be of type i64 fit one.
#[tactic(auto, using(crate::proofs::CellLemmas::accepted_fits_i64))]
pub fn accepted_numbers_fit()
    ensures { AcceptedFit }
{}

/// A cell lies between two others exactly where its value lies between theirs.
#[tactic(auto, using(crate::proofs::CellLemmas::cells_between))]
pub fn cells_lie_between_as_values_do<T: HasAssociatedColumnType>()
    ensures { LieBetweenAlike T.partial_cmp T.cell }
{}

/// The numbers of 64 bits that a column stores are those of its values, and the default is 0.
pub fn stored_numbers_are_cells_of_their_column<T: StoredAsU64>()
    ensures stored { IsStoredAs values64 T.kind T.cell T.value T.is_code }
    ensures default { DefaultIsZero T.is_default T.cell }
{}

/// The numbers of 128 bits that a column stores are those of its values, and the default is 0.
pub fn stored_addresses_are_cells_of_their_column<T: StoredAsU128>()
    ensures stored { IsStoredAs values128 T.kind T.cell T.value (λ _. true) }
    ensures default { DefaultIsZero T.is_default T.cell }
{}
