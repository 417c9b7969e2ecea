//! Types whose columns store numbers.
ghost use Rattle.std.specs.Prelude.{true};
ghost use Rattle.std.proofs.Common.{rules};
ghost use Rattle.col_model.specs.U64List.{values64};
ghost use Rattle.col_model.specs.AddressList.{values128};
ghost use Rattle.col_types.specs.Stored.{IsStoredAs, DefaultIsZero};
ghost use Rattle.col_model.proofs.StoredLaws.{unsigned_stored, signed_stored, times_stored, bool_stored, addresses_stored};

use crate::HasAssociatedColumnType;
use col_common::{DateTime, Ipv6Addr};
use col_values::{MonotonicallyMappableToU64, MonotonicallyMappableToU128};

/// A type whose columns store numbers of 64 bits.
pub trait StoredAsU64: MonotonicallyMappableToU64 + HasAssociatedColumnType + Default {
    /// The stored numbers are those of the values.
    ghost stored: { IsStoredAs values64 Self.kind Self.cell Self.value Self.is_code };

    /// The default is the value whose cell is 0.
    ghost default_is_zero: { DefaultIsZero Self.is_default Self.cell };
}

/// A type whose columns store numbers of 128 bits.
pub trait StoredAsU128: MonotonicallyMappableToU128 + HasAssociatedColumnType + Default {
    /// The stored numbers are those of the values.
    ghost stored: { IsStoredAs values128 Self.kind Self.cell Self.value (λ _. true) };

    /// The default is the value whose cell is 0.
    ghost default_is_zero: { DefaultIsZero Self.is_default Self.cell };
}

impl StoredAsU64 for u64 {
    ghost stored = { unsigned_stored };

    ghost default_is_zero = { Prim.search rules };
}

impl StoredAsU64 for i64 {
    ghost stored = { signed_stored };

    ghost default_is_zero = { Prim.search rules };
}

impl StoredAsU64 for bool {
    ghost stored = { bool_stored };

    ghost default_is_zero = { Prim.search rules };
}

impl StoredAsU64 for DateTime {
    ghost stored = { times_stored };

    ghost default_is_zero = { Prim.search rules };
}

impl StoredAsU128 for Ipv6Addr {
    ghost stored = { addresses_stored };

    ghost default_is_zero = { Prim.search rules };
}
