//! Row ids: as a journal has them, and as places of rows that are dropped.
ghost use Rattle.std.specs.Prelude.{◌≡◌, Some, IfOk};
ghost use Rattle.col_model.specs.Refusal.{or_refuse, invalid_data};
ghost use Rattle.col_writer_columns.specs.Answers.{Gives};
ghost use Rattle.col_segments.specs.RowIds.{row_ids};
ghost use Rattle.col_segments.specs.Segments as model;

use col_common::{ColumnarError, RowId};
use std::alloc::{AllocError, Global};

/// The ids, four bytes each.
#[tactic(auto, using(crate::proofs::IdLemmas::spells_none, crate::proofs::IdLemmas::spells_more))]
pub fn id_bytes(alloc: Global, ids: &[RowId]) -> Result<Vec<u8>, AllocError>
    ensures { IfOk result (λ bytes. row_ids bytes.items ≡ Some ids.now) }
{
    let mut bytes = Vec::new(alloc);
    for id in ids {
        bytes.extend_from_slice(&id.to_le_bytes())?;
    }
    Ok(bytes)
}

// The ids that bytes spell.
#[tactic(auto, using(crate::proofs::IdLemmas::read_more))]
pub(crate) fn read_ids(alloc: Global, bytes: &[u8]) -> Result<Vec<RowId>, ColumnarError>
    ensures { Gives (λ ids. ids.items) result (or_refuse (row_ids bytes.now) invalid_data) }
{
    let mut ids = Vec::new(alloc);
    let mut left = bytes;
    while let [a, b, c, d, rest @ ..] = left {
        ids.push(u32::from_le_bytes([*a, *b, *c, *d]))?;
        left = rest;
    }
    if !left.is_empty() {
        return Err(ColumnarError::InvalidData);
    }
    Ok(ids)
}

// Whether ids ascend strictly, each below the count of rows.
#[tactic(auto, using(crate::proofs::PlaceLemmas::places_step))]
pub(crate) fn are_places(ids: &[RowId], num_rows: RowId) -> bool
    ensures { result ≡ model.are_places 0 num_rows ids.now }
{
    let mut next = 0u64;
    for id in ids {
        if u64::from(*id) < next || *id >= num_rows {
            return false;
        }
        next = u64::from(*id) + 1;
    }
    true
}
