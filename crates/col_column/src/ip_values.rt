//! Columns of addresses.
ghost use Rattle.std.specs.Prelude.{◌≤◌, length, drop};
ghost use Rattle.col_model.specs.Index.{empty_shape};
ghost use Rattle.col_column.specs.IpValues.{ip_values_of};

use crate::column::Column;
use col_common::{ColumnarError, Ipv6Addr, Iterable, RowId, Walk};
use col_compact::U128View;
use col_indexer::ColumnIndex;
use col_values::{ColumnValues, EmptyColumnValues};
use std::ops::Range;

/// A list of addresses: one that is read in place, or none.
#[derive(Drop)]
pub enum IpValues {
    Read(U128View<Ipv6Addr>),
    Empty(EmptyColumnValues),
}

/// A column of addresses.
pub type IpColumn = Column<Ipv6Addr, IpValues>;

impl ColumnValues<Ipv6Addr> for IpValues {
    ghost use Rattle.col_column.specs.IpValues.{ip_values_of, IsLow, IsHigh};

    ghost values = { ip_values_of };

    ghost IsLeast = { IsLow };

    ghost IsGreatest = { IsHigh };

    fn num_vals(&self) -> u32 {
        match self {
            IpValues::Read(values) => values.num_vals(),
            IpValues::Empty(_) => 0,
        }
    }

    #[inline(always)]
    fn get_val(&self, idx: u32) -> Ipv6Addr {
        match self {
            IpValues::Read(values) => values.get_val(idx),
            IpValues::Empty(values) => values.get_val(idx),
        }
    }

    fn min_value(&self) -> Ipv6Addr {
        match self {
            IpValues::Read(values) => values.min_value(),
            IpValues::Empty(values) => values.min_value(),
        }
    }

    fn max_value(&self) -> Ipv6Addr {
        match self {
            IpValues::Read(values) => values.max_value(),
            IpValues::Empty(values) => values.max_value(),
        }
    }

    fn get_vals(&self, indexes: &[u32], output: &mut [Ipv6Addr]) {
        match self {
            IpValues::Read(values) => values.get_vals(indexes, output),
            IpValues::Empty(values) => values.get_vals(indexes, output),
        }
    }

    fn get_vals_opt(&self, indexes: &[u32], output: &mut [Option<Ipv6Addr>]) {
        match self {
            IpValues::Read(values) => values.get_vals_opt(indexes, output),
            IpValues::Empty(values) => values.get_vals_opt(indexes, output),
        }
    }

    fn get_range(&self, start: u64, output: &mut [Ipv6Addr]) {
        match self {
            IpValues::Read(values) => values.get_range(start, output),
            IpValues::Empty(values) => values.get_range(start, output),
        }
    }

    fn get_row_ids_between(
        &self,
        low: Ipv6Addr,
        high: Ipv6Addr,
        row_ids: Range<RowId>,
        hits: &mut Vec<RowId>,
    ) -> Result<(), ColumnarError> {
        match self {
            IpValues::Read(values) => values.get_row_ids_between(low, high, row_ids, hits),
            IpValues::Empty(values) => values.get_row_ids_between(low, high, row_ids, hits),
        }
    }
}

impl Iterable<Ipv6Addr> for IpValues {
    ghost items = { ip_values_of };

    ghost stands = { λ r w. w.place ≤ length (ip_values_of r) };

    ghost left = { λ r w. drop w.place (ip_values_of r) };

    fn walk(&self) -> Walk {
        self.iter().walk()
    }

    #[inline]
    fn next(&self, at: &mut Walk) -> Option<Ipv6Addr> {
        self.iter().next(at)
    }
}

impl Column<Ipv6Addr, IpValues> {
    ghost use Rattle.std.specs.Prelude.{◌≡◌, []};
    ghost use Rattle.col_column.specs.IpValues.{ip_values_of, HasExactBounds};

    /// A column of so many documents, none of which has an address. Both its bounds are the
    /// unspecified address.
    pub fn build_empty_column(num_docs: RowId) -> IpColumn
        ensures shape { result.shape ≡ empty_shape num_docs }
        ensures values { ip_values_of result.values ≡ [] }
        ensures bounds { HasExactBounds result.values }
    {
        Column::new(
            ColumnIndex::Empty { num_docs },
            IpValues::Empty(EmptyColumnValues),
        )
    }
}
