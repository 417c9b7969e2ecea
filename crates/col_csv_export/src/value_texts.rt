//! The texts of values: of columns of numbers, times, flags and addresses.
ghost use Rattle.std.specs.Prelude.{◌≡◌, ◌++◌, decimal, OnOk};
ghost use Rattle.std.specs.Fmt.{signed_decimal};
ghost use Rattle.hex.specs.Hex.{encode_lower};
ghost use Rattle.col_csv.specs.Csv.{value_text};
ghost use Rattle.col_model.specs.ColumnType.{ColumnType};
ghost use Rattle.col_model.specs.ColumnType as types;
ghost use Rattle.col_model.specs.Table.{Cell, number};
ghost use Rattle.col_types.specs.Cells.{unsigned_cell, bool_cell};

use col_common::{DateTime, Ipv6Addr};
use itoa::Buffer;
use std::alloc::{AllocError, Global};

// Appends the texts of a column's values.
pub(crate) trait ValueTexts<T> {
    /// The type of the column.
    ghost kind: { ColumnType };

    /// The cell of a value.
    ghost cell: { Self → T → Cell };

    fn push(&self, alloc: Global, value: T, field: &mut Vec<u8>) -> Result<(), AllocError>
        ensures { OnOk result
            (field.new.items ≡ field.old.items ++ value_text kind (cell self.now value)) };
}

// The texts of values that need nothing beside them.
#[derive(Drop)]
pub(crate) struct PlainTexts;

impl ValueTexts<u64> for PlainTexts {
    ghost kind = { types.u64 };

    ghost cell = { λ _. unsigned_cell };

    #[inline]
    fn push(&self, _alloc: Global, value: u64, field: &mut Vec<u8>) -> Result<(), AllocError> {
        push_number(field, value)
    }
}

impl ValueTexts<i64> for PlainTexts {
    ghost kind = { types.i64 };

    ghost cell = { λ _. number };

    #[inline]
    fn push(&self, _alloc: Global, value: i64, field: &mut Vec<u8>) -> Result<(), AllocError> {
        push_signed(field, value)
    }
}

impl ValueTexts<DateTime> for PlainTexts {
    ghost kind = { types.datetime };

    ghost cell = { λ _. number };

    #[inline]
    fn push(&self, _alloc: Global, value: DateTime, field: &mut Vec<u8>) -> Result<(), AllocError> {
        push_signed(field, value.into_timestamp_nanos())
    }
}

impl ValueTexts<bool> for PlainTexts {
    ghost kind = { types.bool };

    ghost cell = { λ _. bool_cell };

    #[inline]
    fn push(&self, _alloc: Global, value: bool, field: &mut Vec<u8>) -> Result<(), AllocError> {
        if value {
            field.extend_from_slice(b"true")?;
        } else {
            field.extend_from_slice(b"false")?;
        }
        Ok(())
    }
}

impl ValueTexts<Ipv6Addr> for PlainTexts {
    ghost kind = { types.ip };

    ghost cell = { λ _. unsigned_cell };

    fn push(&self, alloc: Global, value: Ipv6Addr, field: &mut Vec<u8>) -> Result<(), AllocError> {
        push_digits(alloc, field, &value.to_bits().to_be_bytes())
    }
}

// Appends a number in decimal.
#[inline]
pub(crate) fn push_number(field: &mut Vec<u8>, number: u64) -> Result<(), AllocError>
    ensures { OnOk result (field.new.items ≡ field.old.items ++ decimal number) }
{
    let mut buffer = Buffer::new();
    field.extend_from_slice(buffer.format(number).as_bytes())
}

// The same of a number with a sign.
#[inline]
fn push_signed(field: &mut Vec<u8>, number: i64) -> Result<(), AllocError>
    ensures { OnOk result (field.new.items ≡ field.old.items ++ signed_decimal number) }
{
    let mut buffer = Buffer::new();
    field.extend_from_slice(buffer.format(number).as_bytes())
}

// Appends bytes as digits in hexadecimal.
pub(crate) fn push_digits(
    alloc: Global,
    field: &mut Vec<u8>,
    bytes: &[u8],
) -> Result<(), AllocError>
    ensures { OnOk result (field.new.items ≡ field.old.items ++ encode_lower bytes.now) }
{
    let digits = hex::encode(alloc, bytes)?;
    field.extend_from_slice(digits.as_bytes())
}
