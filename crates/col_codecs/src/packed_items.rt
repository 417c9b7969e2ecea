//! The packed codes of a list, and the lookup that is lent nothing else.
ghost use Rattle.std.specs.Prelude.{◌≡◌, ◌<◌, ◌≤◌, ◌+◌, ◌-◌, ◌*◌, ◌^◌};
ghost use Rattle.col_common.specs.Replacing.{Replaces};
ghost use Rattle.col_bits.specs.Packed.{item};
ghost use Rattle.col_codecs.specs.BlockBounds.{Enclose};
ghost use Rattle.col_codecs.specs.BoundedItems.{ids_by};

use crate::block_bounds::Bounds;
use crate::bounded_items::{BoundedItems, find_ids};
use crate::counted_codes::CountedCodes;
use col_bits::BitUnpacker;
use col_common::{ColumnarError, Steps};
use std::alloc::AllocError;
use std::ops::Range;
use std::sync::ledger::Ledger;

/// The packed codes of a list.
#[derive(Clone, Copy)]
pub struct PackedItems<'a> {
    pub bit_unpacker: BitUnpacker,
    pub bytes: &'a [u8],
}

impl BoundedItems for PackedItems<'_> {
    ghost use Rattle.std.specs.Prelude.{◌^◌};
    ghost use Rattle.col_bits.specs.Packed.{item};

    ghost item = { λ p. item p.bytes.now p.bit_unpacker };

    ghost count = { λ _. 2 ^ 32 };

    ghost IsWhole = { λ _. Unit {0} };

    fn read(&self, start: u32, output: &mut [u64]) {
        self.bit_unpacker.get_range(start, self.bytes, output);
    }

    fn is_small(&self) -> bool {
        u32::from(self.bit_unpacker.bit_width()) <= u32::BITS
    }

    fn push_ids(
        &self,
        low: u64,
        high: u64,
        ids: Range<u32>,
        block: &mut [u32],
        hits: &mut Vec<u32>,
    ) -> Result<(), AllocError> {
        self.bit_unpacker
            .push_ids(low, high, ids, self.bytes, block, hits)
    }
}

/// Puts there which of the ids have a value from `low` to `high`. Only `codes` turns values into
/// codes, and each turn is a step of `steps`: no other ledger is its own.
pub fn find_values<L: Ledger>(
    items: &PackedItems<'_>,
    bounds: &[Bounds],
    codes: &CountedCodes<L>,
    low: u64,
    high: u64,
    ids: Range<u32>,
    hits: &mut Vec<u32>,
    steps: &mut Steps<L>,
) -> Result<(), ColumnarError>
    requires { Enclose bounds.now (item items.now.bytes.now items.now.bit_unpacker) ids.end }
    ensures ok { Replaces result hits.new.items (ids_by (λ id. codes.now.least
        + codes.now.divisor * item items.now.bytes.now items.now.bit_unpacker id)
        low high ids.start (ids.end - ids.start)) }
    ensures steps { steps.new ≤ steps.old + 2 }
{
    let (first, last) = codes.codes_between(low, high, steps).into_inner();
    find_ids(items, bounds, first, last, ids, hits)
}
