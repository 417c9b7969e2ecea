//! Tests of what a column may hold, before its first byte.
ghost use Rattle.std.specs.Prelude.{◌≡◌, ◌<◌, ◌^◌, true, nat_le, zip, Some, bytes_eq, length, IfOk};
ghost use Rattle.std.specs.List.{IsDistinct};
ghost use Rattle.col_model.specs.AddressList.{least_codes};
ghost use Rattle.col_common.specs.Ascending.{are_below};
ghost use Rattle.col_model.specs.U64List.{joined_lists};
ghost use Rattle.col_model.specs.Written.{is_past_ties};
ghost use Rattle.col_terms.specs.Building.{is_too_long};
ghost use Rattle.col_writer_rows.specs.RowOrders.{AreRowDocs};
ghost use Rattle.col_writer_rows.specs.Rows.{picked_rows};

use crate::row_values::place_values;
use crate::{DocList, RowOrder};
use col_common::{ColumnarError, DocId, RowId};
use col_compact::CompactSpaceCompressor;
use col_terms::DictionaryBuilder;
use std::alloc::{AllocError, Global};

// How many bytes a dictionary may have.
const MAX_NUM_BYTES: u64 = 4_294_967_295;

// So many addresses, of which each needs three codes at most, need fewer than 2 ^ 32.
const FEW_ADDRESSES: usize = 1_431_655_765;

/// Whether 32 bits don't count the bytes of the dictionary of these terms.
pub fn is_dictionary_too_long(terms: &DictionaryBuilder) -> bool
    requires { IsDistinct bytes_eq terms.now }
    ensures { result ≡ is_too_long terms.now }
{
    let ends_len = terms.num_terms().saturating_mul(4).saturating_add(4);
    ends_len.saturating_add(terms.terms_num_bytes()) > MAX_NUM_BYTES
}

/// Whether 32 bits don't count the codes that the addresses of the rows need.
pub fn need_too_many_codes(
    alloc: Global,
    docs: &DocList,
    addresses: &[u128],
    order: &RowOrder,
) -> Result<bool, AllocError>
    requires below { are_below (length order.now) docs.now ≡ true }
    requires beside { length docs.now ≡ length addresses.now }
    requires few { length addresses.now < 2 ^ 32 }
    ensures { let rows = picked_rows order.now (zip docs.now addresses.now) in
        IfOk result (λ b. b ≡ nat_le (2 ^ 32) (least_codes (joined_lists rows))) }
{
    order.documents_have_rows();
    if addresses.len() <= FEW_ADDRESSES {
        return Ok(false);
    }
    docs.never_fall();
    match order.placed() {
        Some(row_docs) => need_too_many_placed(alloc, docs, addresses, row_docs),
        None => need_too_many(alloc, addresses),
    }
}

// The same where the documents stand at other rows.
fn need_too_many_placed(
    alloc: Global,
    docs: &DocList,
    addresses: &[u128],
    row_docs: &[DocId],
) -> Result<bool, AllocError>
    requires below { are_below (length row_docs.now) docs.now ≡ true }
    requires beside { length docs.now ≡ length addresses.now }
    requires few { length addresses.now < 2 ^ 32 }
    requires placed { AreRowDocs (length row_docs.now) row_docs.now }
    requires rows { length row_docs.now < 2 ^ 32 }
    ensures { let rows = picked_rows row_docs.now (zip docs.now addresses.now) in
        IfOk result (λ b. b ≡ nat_le (2 ^ 32) (least_codes (joined_lists rows))) }
{
    let (_counts, placed) = place_values(alloc, docs, addresses, row_docs)?;
    need_too_many(alloc, &placed)
}

// Whether 32 bits don't count the codes that these addresses need.
fn need_too_many(alloc: Global, addresses: &[u128]) -> Result<bool, AllocError>
    requires { length addresses.now < 2 ^ 32 }
    ensures { IfOk result (λ b. b ≡ nat_le (2 ^ 32) (least_codes addresses.now)) }
{
    match CompactSpaceCompressor::train_from(alloc, &addresses) {
        Ok(_) => Ok(false),
        Err(ColumnarError::TooLarge) => Ok(true),
        Err(_) => Err(AllocError),
    }
}

/// Whether so many numbers from a start on leave the signed numbers of 32 bits.
pub fn is_past_ties(start: i64, num_docs: RowId) -> bool
    ensures { result ≡ is_past_ties num_docs (Some start) }
{
    start < i64::from(i32::MIN) || start > i64::from(i32::MAX) - i64::from(num_docs)
}
