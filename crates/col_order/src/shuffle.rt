//! Rows that are named one by one.
ghost use Rattle.std.specs.Prelude.{◌≡◌, ◌⊎◌, ◌<◌, map, length, slice_get, slice_index};
ghost use Rattle.std.specs.Prelude.{true, Some, Err, IfOk, IfErr, IfSome};
ghost use Rattle.col_common.specs.declared.error.ColumnarError.TheVariants as refusals;
ghost use Rattle.std.specs.List.{list_all};
ghost use Rattle.col_model.specs.Order.{has_row};
ghost use Rattle.col_order.specs.Orders.{address_of, named_rows, AreWithin};
ghost use Rattle.col_order.specs.Orders.{shuffle_refusal, error_of};

use col_common::{BitSet, ColumnarError, RowAddr, RowId};
use std::alloc::{AllocError, Global};
use std::marker::Model;

/// The order that takes the rows that it names, in this order. Contracts see the row counts of the
/// segments and the rows, as segment and row.
#[derive(Drop)]
pub struct ShuffleMergeOrder {
    segment_num_rows: Vec<RowId>,
    new_row_id_to_old_row_id: Vec<RowAddr>,
}

impl Model for ShuffleMergeOrder {
    ghost use Rattle.std.specs.Prelude.{map};
    ghost use Rattle.col_order.specs.Orders.{Shuffle, IsShuffle, address_of};

    ghost Value = { Shuffle };

    ghost view = { λ o.
        record {
          counts = o.segment_num_rows.items;
          addresses = map address_of o.new_row_id_to_old_row_id.items;
        } };

    ghost invariant = { λ o. IsShuffle (record {
      counts = o.segment_num_rows.items;
      addresses = map address_of o.new_row_id_to_old_row_id.items;
    }) };
}

impl ShuffleMergeOrder {
    ghost use Rattle.col_order.specs.Orders.{Shuffle};

    /// The order of these rows of segments with these row counts.
    pub fn new(
        alloc: Global,
        segment_num_rows: &[RowId],
        new_row_id_to_old_row_id: Vec<RowAddr>,
    ) -> Result<ShuffleMergeOrder, ColumnarError>
        ensures ok { IfOk result (λ order. order ≡ record {
          counts = segment_num_rows.now;
          addresses = map address_of new_row_id_to_old_row_id.items;
        }) }
        // A row that no segment has, and then too many rows, before any memory is taken.
        ensures refused { let addresses = map address_of new_row_id_to_old_row_id.items in
            IfSome (shuffle_refusal segment_num_rows.now addresses) (λ e. result ≡ Err e) }
        ensures err { let addresses = map address_of new_row_id_to_old_row_id.items in
            IfErr result (λ e. (e ≡ refusals.OutOfMemory)
            ⊎ (shuffle_refusal segment_num_rows.now addresses ≡ Some e)) }
    {
        check(segment_num_rows, &new_row_id_to_old_row_id)?;
        Ok(ShuffleMergeOrder {
            segment_num_rows: segment_num_rows.to_vec(alloc)?,
            new_row_id_to_old_row_id,
        })
    }

    /// The same.
    pub fn for_test(
        alloc: Global,
        segment_num_rows: &[RowId],
        new_row_id_to_old_row_id: Vec<RowAddr>,
    ) -> Result<ShuffleMergeOrder, ColumnarError>
        ensures ok { IfOk result (λ order. order ≡ record {
          counts = segment_num_rows.now;
          addresses = map address_of new_row_id_to_old_row_id.items;
        }) }
        ensures refused { let addresses = map address_of new_row_id_to_old_row_id.items in
            IfSome (shuffle_refusal segment_num_rows.now addresses) (λ e. result ≡ Err e) }
        ensures err { let addresses = map address_of new_row_id_to_old_row_id.items in
            IfErr result (λ e. (e ≡ refusals.OutOfMemory)
            ⊎ (shuffle_refusal segment_num_rows.now addresses ≡ Some e)) }
    {
        ShuffleMergeOrder::new(alloc, segment_num_rows, new_row_id_to_old_row_id)
    }

    /// How many rows are named.
    pub fn num_rows(&self) -> RowId
        ensures { result ≡ length self.now.addresses }
    {
        self.new_row_id_to_old_row_id.len() as RowId
    }

    /// How many segments there are.
    pub fn num_segments(&self) -> usize
        ensures { result ≡ length self.now.counts }
    {
        self.segment_num_rows.len()
    }

    /// How many rows a segment has.
    pub fn segment_num_rows(&self, segment: usize) -> RowId
        requires { segment < length self.now.counts }
        ensures { result ≡ slice_index self.now.counts segment }
    {
        self.segment_num_rows[segment]
    }

    /// The old row that becomes a new one.
    pub fn row_addr(&self, row: RowId) -> RowAddr
        requires { row < length self.now.addresses }
        ensures { slice_get self.now.addresses row ≡ Some (address_of result) }
    {
        self.new_row_id_to_old_row_id[row as usize]
    }

    /// The old rows, in their new order.
    pub fn iter_new_to_old_row_addrs(&self) -> &[RowAddr]
        ensures { map address_of result.now ≡ self.now.addresses }
    {
        &self.new_row_id_to_old_row_id
    }

    /// Which rows of a segment are named. The set is made of all rows that are, and has a bit for
    /// each row of the segment.
    pub fn alive(&self, alloc: Global, segment: usize) -> Result<BitSet, AllocError>
        requires { segment < length self.now.counts }
        ensures { IfOk result (λ set. set ≡ named_rows self.now.addresses segment
            (slice_index self.now.counts segment)) }
    {
        let num_rows = self.segment_num_rows[segment];
        alive_bitset(alloc, &self.new_row_id_to_old_row_id, segment, num_rows)
    }

    /// Each row that is named is one of its segment.
    pub fn rows_are_there(&self)
        ensures { list_all (has_row self.now.counts) self.now.addresses ≡ true }
    {
        // That the order is one of its segments is known where a field is read.
        let _ = &self.segment_num_rows;
    }
}

// Refuses rows that no segment has, and then too many rows.
fn check(segment_num_rows: &[RowId], addrs: &[RowAddr]) -> Result<(), ColumnarError>
    ensures { error_of result ≡ shuffle_refusal segment_num_rows.now (map address_of addrs.now) }
{
    if !are_there(segment_num_rows, addrs) {
        return Err(ColumnarError::BadOrder);
    }
    if addrs.len() > u32::MAX as usize {
        return Err(ColumnarError::TooLarge);
    }
    Ok(())
}

// Whether each row is one of its segment.
fn are_there(segment_num_rows: &[RowId], addrs: &[RowAddr]) -> bool
    ensures { result ≡ list_all (λ addr. has_row segment_num_rows.now (address_of addr)) addrs.now }
{
    addrs.iter().all(|addr| is_there(segment_num_rows, *addr))
}

// Whether a segment has the row.
fn is_there(segment_num_rows: &[RowId], addr: RowAddr) -> bool
    ensures { result ≡ has_row segment_num_rows.now (address_of addr) }
{
    match segment_num_rows.get(addr.segment_ord as usize) {
        Some(num_rows) => addr.row_id < *num_rows,
        None => false,
    }
}

// Which rows of a segment with so many are named.
fn alive_bitset(
    alloc: Global,
    addrs: &[RowAddr],
    segment: usize,
    num_rows: RowId,
) -> Result<BitSet, AllocError>
    requires { AreWithin segment num_rows (map address_of addrs.now) }
    ensures { IfOk result (λ set. set ≡ named_rows (map address_of addrs.now) segment num_rows) }
{
    let mut set = BitSet::with_max_value(alloc, num_rows)?;
    for addr in addrs {
        if addr.segment_ord as usize == segment {
            set.insert(addr.row_id);
        }
    }
    Ok(set)
}
