//! Lists under Linear, read in place.
ghost use Rattle.std.specs.Prelude.{◌≡◌, ◌≤◌, ◌-◌, ◌*◌, ◌&&◌, [], length, drop, option_map, IfSome, IfOk, IsTrue};
ghost use Rattle.col_common.specs.Decoding.{Decodes};
ghost use Rattle.col_common.specs.Reading.{only_if};
ghost use Rattle.col_bits.specs.Packed.{is_width, is_packed};
ghost use Rattle.col_model.specs.Stats.{stats_of, same_stats};
ghost use Rattle.col_model.specs.U64List.{params_at};
ghost use Rattle.col_model.specs.Items.{linear_item, linear_items};
ghost use Rattle.col_codecs.specs.ColumnStats.{stats_seen};
ghost use Rattle.col_codecs.specs.BlockBounds.{Enclose};
ghost use Rattle.col_codecs.specs.Header.{checked, list_by};
ghost use Rattle.col_codecs.specs.OnLine.{values_on};
ghost use Rattle.col_codecs.specs.Line.{with_width};
ghost use Rattle.col_codecs.specs.LinearParams.{params_seen};

use crate::block_bounds::Bounds;
use crate::bounded_items::{BoundedItems, find_ids, read_bounds};
use crate::column_stats::ColumnStats;
use crate::line::Line;
use crate::line_order::{never_falls_on, rises_on};
use crate::line_stats::stats_on;
use crate::linear_params::LinearParams;
use crate::on_line::find_on_line;
use bytes::Bytes;
use col_bits::{BitUnpacker, is_packed};
use col_common::{ColumnarError, Iterable, RowId, Walk, cut_rest};
use col_values::{ColumnValues, Found, Rows};
use std::alloc::{AllocError, Global};
use std::marker::Model;

/// A list that is read in place.
#[derive(Drop)]
pub struct LinearReader {
    data: Bytes,
    line: Line,
    bit_unpacker: BitUnpacker,
    stats: ColumnStats,
    // The bounds of the items of each block; none where the items are the line's values.
    bounds: Vec<Bounds>,
}

impl Model for LinearReader {
    ghost use Rattle.std.specs.Prelude.{◌≡◌, List, ℕ};
    ghost use Rattle.col_model.specs.Stats.{stats_of};
    ghost use Rattle.col_model.specs.Items.{linear_item, linear_items};
    ghost use Rattle.col_codecs.specs.ColumnStats.{stats_seen};
    ghost use Rattle.col_codecs.specs.BlockBounds.{Enclose};
    ghost use Rattle.col_codecs.specs.Line.{with_width};

    ghost Value = { List ℕ };

    ghost view = { λ r. linear_items (with_width r.line r.bit_unpacker) r.data r.stats.num_rows };

    ghost invariant = { λ r. let l = with_width r.line r.bit_unpacker in
        (stats_seen r.stats ≡ stats_of (linear_items l r.data r.stats.num_rows))
        × Enclose r.bounds.items (linear_item l r.data) r.stats.num_rows };
}

impl LinearReader {
    /// Opens a line and offsets behind statistics, which must be those of the list.
    pub fn open(
        alloc: Global,
        stats: ColumnStats,
        bytes: Bytes,
    ) -> Result<LinearReader, ColumnarError>
        ensures { Decodes (λ list. list) result (list_by 1 (stats_seen stats) bytes) }
    {
        let Some((params, data)) = take_params(bytes) else {
            return Err(ColumnarError::InvalidData);
        };
        let bounds = read_list(alloc, &stats, params, data.as_slice())?;
        Ok(LinearReader {
            data,
            line: params.line,
            bit_unpacker: BitUnpacker::new(params.offset_width),
            stats,
            bounds,
        })
    }

    /// The same list once more, which shares its bytes.
    pub fn try_clone(&self) -> Result<LinearReader, AllocError>
        ensures { IfOk result (λ r. r ≡ self.now) }
    {
        Ok(LinearReader {
            data: self.data.slice(..)?,
            line: self.line,
            bit_unpacker: self.bit_unpacker,
            stats: self.stats,
            bounds: self.bounds.clone()?,
        })
    }
}

impl LinearReader {
    ghost use Rattle.col_common.specs.Ascending.{is_rising, is_never_falling};

    /// Whether each value is below the next, where that is known without a walk: the values of a
    /// list of width 0 stand on the line.
    pub fn rises(&self) -> Option<bool>
        ensures { IfSome result (λ answer. answer ≡ is_rising self.now) }
    {
        if self.bit_unpacker.bit_width() != 0 {
            return None;
        }
        Some(rises_on(self.line.slope, self.line.intercept, self.stats.num_rows))
    }

    /// Whether no value is above the next, where that is known without a walk.
    pub fn never_falls(&self) -> Option<bool>
        ensures { IfSome result (λ answer. answer ≡ is_never_falling self.now) }
    {
        if self.bit_unpacker.bit_width() != 0 {
            return None;
        }
        never_falls_on(self.line.slope, self.line.intercept, self.stats.num_rows)
    }
}

impl ColumnValues<u64> for LinearReader {
    ghost use Rattle.std.specs.Prelude.{◌≡◌, ◌<◌};
    ghost use Rattle.col_model.specs.Stats.{least_of, greatest_of};

    ghost values = { λ r. r };

    ghost IsLeast = { λ r v. v ≡ least_of r };

    ghost IsGreatest = { λ r v. v ≡ greatest_of r };

    #[inline]
    fn num_vals(&self) -> u32 {
        self.stats.num_rows
    }

    #[inline(always)]
    fn get_val(&self, idx: u32) -> u64 {
        item_at(self.line, self.bit_unpacker, idx, self.data.as_slice())
    }

    #[inline]
    fn min_value(&self) -> u64 {
        self.stats.min_value
    }

    #[inline]
    fn max_value(&self) -> u64 {
        self.stats.max_value
    }

    fn get_range(&self, start: u64, output: &mut [u64]) {
        // That there are fewer than 2 ^ 32 values is known of the count.
        let _count = self.stats.num_rows;
        let items = LinearItems {
            line: self.line,
            bit_unpacker: self.bit_unpacker,
            bytes: self.data.as_slice(),
        };
        items.read(start as u32, output);
    }

    fn get_row_ids_between(&self, low: u64, high: u64, rows: Rows, hits: &mut Vec<RowId>) -> Found {
        let ids = rows.start..rows.end.min(self.stats.num_rows);
        if self.bit_unpacker.bit_width() == 0 {
            return find_on_line(self.line, low, high, ids, hits);
        }
        let items = LinearItems {
            line: self.line,
            bit_unpacker: self.bit_unpacker,
            bytes: self.data.as_slice(),
        };
        find_ids(&items, &self.bounds, low, high, ids, hits)
    }
}

impl Iterable<u64> for LinearReader {
    ghost items = { λ r. r };

    ghost stands = { λ r w. w.place ≤ length r };

    ghost left = { λ r w. drop w.place r };

    fn walk(&self) -> Walk {
        self.iter().walk()
    }

    #[inline]
    fn next(&self, at: &mut Walk) -> Option<u64> {
        self.iter().next(at)
    }
}

// The items of a list.
#[derive(Clone, Copy)]
struct LinearItems<'a> {
    line: Line,
    bit_unpacker: BitUnpacker,
    bytes: &'a [u8],
}

impl BoundedItems for LinearItems<'_> {
    ghost use Rattle.std.specs.Prelude.{◌^◌};
    ghost use Rattle.col_model.specs.Items.{linear_item};
    ghost use Rattle.col_codecs.specs.Line.{with_width};

    ghost item = { λ l. linear_item (with_width l.line l.bit_unpacker) l.bytes.now };

    ghost count = { λ _. 2 ^ 32 };

    ghost IsWhole = { λ _. Unit {0} };

    fn read(&self, start: u32, output: &mut [u64]) {
        self.bit_unpacker.get_range(start, self.bytes, output);
        self.line.add_to(start, output);
    }
}

// The line and the width byte at the front, and the bytes behind them.
fn take_params(bytes: Bytes) -> Option<(LinearParams, Bytes)>
    ensures value { option_map (λ r. (params_seen r.0, r.1)) result ≡ params_at bytes }
    ensures width { IfSome result (λ r. IsTrue (is_width r.0.offset_width)) }
{
    let (params, rest_len) = read_params(bytes.as_slice())?;
    Some((params, cut_rest(bytes, rest_len)))
}

// The line and the width byte at the front, and how many bytes are behind them.
fn read_params(bytes: &[u8]) -> Option<(LinearParams, usize)>
    ensures value { option_map
        (λ r. (params_seen r.0, drop (length bytes.now - r.1) bytes.now)) result
        ≡ params_at bytes.now }
    ensures within { IfSome result (λ r. r.1 ≤ length bytes.now) }
    ensures width { IfSome result (λ r. IsTrue (is_width r.0.offset_width)) }
{
    let (params, rest) = LinearParams::read(bytes)?;
    Some((params, rest.len()))
}

// The bounds of the blocks of the items, where the bytes are packed offsets, and the statistics are
// those of the items. With the width 0 the items are the line's values, and none are kept.
fn read_list(
    alloc: Global,
    stats: &ColumnStats,
    params: LinearParams,
    bytes: &[u8],
) -> Result<Vec<Bounds>, ColumnarError>
    requires { IsTrue (is_width params.offset_width) }
    ensures list { let list = linear_items (params_seen params) bytes.now stats.now.num_rows in
        Decodes (λ _. list) result (only_if (is_packed bytes.now
        (stats.now.num_rows * params.offset_width)
        && same_stats (stats_of list) (stats_seen stats.now)) list) }
    ensures bounds { IfOk result (λ bs.
        Enclose bs.items (linear_item (params_seen params) bytes.now) stats.now.num_rows) }
{
    let num_bits = stats.num_rows as usize * params.offset_width as usize;
    if !is_packed(bytes, num_bits) {
        return Err(ColumnarError::InvalidData);
    }
    if params.offset_width == 0 {
        return read_flat(alloc, stats, params.line);
    }
    let items = LinearItems {
        line: params.line,
        bit_unpacker: BitUnpacker::new(params.offset_width),
        bytes,
    };
    let (found, bounds) = read_bounds(alloc, &items, stats.num_rows)?;
    if !found.is_same(stats) {
        return Err(ColumnarError::InvalidData);
    }
    Ok(bounds)
}

// No bounds, where the statistics are those of the line's values.
fn read_flat(alloc: Global, stats: &ColumnStats, line: Line) -> Result<Vec<Bounds>, ColumnarError>
    ensures list { let list = values_on line 0 stats.now.num_rows in
        Decodes (λ _. list) result (checked (stats_seen stats.now) list) }
    ensures none { IfOk result (λ bs. bs.items ≡ []) }
{
    if !stats_on(line, stats.num_rows).is_same(stats) {
        return Err(ColumnarError::InvalidData);
    }
    Ok(Vec::new(alloc))
}

// The line's value at an index plus the offset there, modulo 2^64.
#[inline(always)]
fn item_at(line: Line, bit_unpacker: BitUnpacker, idx: u32, bytes: &[u8]) -> u64
    ensures { result ≡ linear_item (with_width line bit_unpacker) bytes.now idx }
{
    line.eval(idx).wrapping_add(bit_unpacker.get(idx, bytes))
}
