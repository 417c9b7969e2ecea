//! Types of keys, and the columns whose values have such keys.
ghost use Rattle.std.specs.Prelude.{◌≡◌, List, Option, OnOk};
ghost use Rattle.col_dynamic.specs.declared.dynamic_column.DynamicColumn.{DynamicColumn};
ghost use Rattle.col_sort_rows.specs.Keys.{added, rows_from};
ghost use Rattle.col_sort.specs.Columns.{number_keys, unsigned_keys, signed_keys, bool_keys, time_keys, address_keys};

use crate::firsts::push_firsts;
use crate::key_bounds::stated_bounds;
use crate::key_of::{OwnKeys, WholeNumbers};
use col_common::{DateTime, Ipv6Addr};
use col_dynamic::DynamicColumn;
use col_sort_rows::{KeyedRows, SortKey};
use std::alloc::{AllocError, Global};

/// A type of keys, and the columns whose values have such keys.
pub(crate) trait ColumnKey: SortKey {
    /// The key of each row's first value in a column, where it has one.
    ghost keys: { DynamicColumn → List (Option Self) };

    /// Adds a segment's rows by the keys of its column.
    fn push_column(
        alloc: Global,
        column: &DynamicColumn,
        segment_ord: u32,
        rows: &mut KeyedRows<Self>,
    ) -> Result<(), AllocError>
        ensures { OnOk result
            (rows.new ≡ added rows.old (rows_from segment_ord 0 (keys column.now))) };

    /// The keys of the least and of the greatest value that a column states: a hint alone. None for
    /// columns without values, and where values have other keys.
    fn bounds(column: &DynamicColumn) -> Option<(Self, Self)>;
}

impl ColumnKey for i128 {
    ghost keys = { number_keys };

    fn push_column(
        alloc: Global,
        column: &DynamicColumn,
        segment_ord: u32,
        rows: &mut KeyedRows<i128>,
    ) -> Result<(), AllocError> {
        match column {
            DynamicColumn::I64(column) => push_firsts(
                alloc,
                column,
                &WholeNumbers,
                segment_ord,
                rows,
            ),
            DynamicColumn::U64(column) => push_firsts(
                alloc,
                column,
                &WholeNumbers,
                segment_ord,
                rows,
            ),
            DynamicColumn::Bool(_)
            | DynamicColumn::IpAddr(_)
            | DynamicColumn::DateTime(_)
            | DynamicColumn::Bytes(_)
            | DynamicColumn::Str(_) => rows.push_without(segment_ord, column.num_docs()),
        }
    }

    fn bounds(column: &DynamicColumn) -> Option<(i128, i128)> {
        match column {
            DynamicColumn::I64(column) => stated_bounds(column, &WholeNumbers),
            DynamicColumn::U64(column) => stated_bounds(column, &WholeNumbers),
            _ => None,
        }
    }
}

impl ColumnKey for u64 {
    ghost keys = { unsigned_keys };

    fn push_column(
        alloc: Global,
        column: &DynamicColumn,
        segment_ord: u32,
        rows: &mut KeyedRows<u64>,
    ) -> Result<(), AllocError> {
        match column {
            DynamicColumn::U64(column) => push_firsts(alloc, column, &OwnKeys, segment_ord, rows),
            DynamicColumn::I64(_)
            | DynamicColumn::Bool(_)
            | DynamicColumn::IpAddr(_)
            | DynamicColumn::DateTime(_)
            | DynamicColumn::Bytes(_)
            | DynamicColumn::Str(_) => rows.push_without(segment_ord, column.num_docs()),
        }
    }

    fn bounds(column: &DynamicColumn) -> Option<(u64, u64)> {
        match column {
            DynamicColumn::U64(column) => stated_bounds(column, &OwnKeys),
            _ => None,
        }
    }
}

impl ColumnKey for i64 {
    ghost keys = { signed_keys };

    fn push_column(
        alloc: Global,
        column: &DynamicColumn,
        segment_ord: u32,
        rows: &mut KeyedRows<i64>,
    ) -> Result<(), AllocError> {
        match column {
            DynamicColumn::I64(column) => push_firsts(alloc, column, &OwnKeys, segment_ord, rows),
            DynamicColumn::U64(_)
            | DynamicColumn::Bool(_)
            | DynamicColumn::IpAddr(_)
            | DynamicColumn::DateTime(_)
            | DynamicColumn::Bytes(_)
            | DynamicColumn::Str(_) => rows.push_without(segment_ord, column.num_docs()),
        }
    }

    fn bounds(column: &DynamicColumn) -> Option<(i64, i64)> {
        match column {
            DynamicColumn::I64(column) => stated_bounds(column, &OwnKeys),
            _ => None,
        }
    }
}

impl ColumnKey for bool {
    ghost keys = { bool_keys };

    fn push_column(
        alloc: Global,
        column: &DynamicColumn,
        segment_ord: u32,
        rows: &mut KeyedRows<bool>,
    ) -> Result<(), AllocError> {
        match column {
            DynamicColumn::Bool(column) => push_firsts(alloc, column, &OwnKeys, segment_ord, rows),
            DynamicColumn::I64(_)
            | DynamicColumn::U64(_)
            | DynamicColumn::IpAddr(_)
            | DynamicColumn::DateTime(_)
            | DynamicColumn::Bytes(_)
            | DynamicColumn::Str(_) => rows.push_without(segment_ord, column.num_docs()),
        }
    }

    fn bounds(column: &DynamicColumn) -> Option<(bool, bool)> {
        match column {
            DynamicColumn::Bool(column) => stated_bounds(column, &OwnKeys),
            _ => None,
        }
    }
}

impl ColumnKey for DateTime {
    ghost keys = { time_keys };

    fn push_column(
        alloc: Global,
        column: &DynamicColumn,
        segment_ord: u32,
        rows: &mut KeyedRows<DateTime>,
    ) -> Result<(), AllocError> {
        match column {
            DynamicColumn::DateTime(column) => push_firsts(
                alloc,
                column,
                &OwnKeys,
                segment_ord,
                rows,
            ),
            DynamicColumn::Bool(_)
            | DynamicColumn::I64(_)
            | DynamicColumn::U64(_)
            | DynamicColumn::IpAddr(_)
            | DynamicColumn::Bytes(_)
            | DynamicColumn::Str(_) => rows.push_without(segment_ord, column.num_docs()),
        }
    }

    fn bounds(column: &DynamicColumn) -> Option<(DateTime, DateTime)> {
        match column {
            DynamicColumn::DateTime(column) => stated_bounds(column, &OwnKeys),
            _ => None,
        }
    }
}

impl ColumnKey for Ipv6Addr {
    ghost keys = { address_keys };

    fn push_column(
        alloc: Global,
        column: &DynamicColumn,
        segment_ord: u32,
        rows: &mut KeyedRows<Ipv6Addr>,
    ) -> Result<(), AllocError> {
        match column {
            DynamicColumn::IpAddr(column) => push_firsts(
                alloc,
                column,
                &OwnKeys,
                segment_ord,
                rows,
            ),
            DynamicColumn::Bool(_)
            | DynamicColumn::I64(_)
            | DynamicColumn::U64(_)
            | DynamicColumn::DateTime(_)
            | DynamicColumn::Bytes(_)
            | DynamicColumn::Str(_) => rows.push_without(segment_ord, column.num_docs()),
        }
    }

    fn bounds(column: &DynamicColumn) -> Option<(Ipv6Addr, Ipv6Addr)> {
        match column {
            DynamicColumn::IpAddr(column) => stated_bounds(column, &OwnKeys),
            _ => None,
        }
    }
}
