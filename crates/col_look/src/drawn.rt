//! Bars of the numbers of columns.
ghost use Rattle.std.specs.Prelude.{◌≡◌, ◌+◌, ◌-◌, ◌/◌, ◌*◌, ◌<◌, ◌≤◌, ◌^◌, ℕ, suc, true, [], ◌∷◌, length, map, IfOk};
ghost use Rattle.std.specs.List.{range_with_len};
ghost use Rattle.col_dynamic.specs.Dynamic.{type_of, content_of};
ghost use Rattle.col_look.specs.Bars.{has_bars, bars_of, bars_between, bar_total, bar_start, bar_end};
ghost use Rattle.col_look.specs.BarsAt.{bar_at, bars_from};
ghost use Rattle.col_look.specs.Ends.{cells_of, least_cell, greatest_cell};
ghost use Rattle.col_model.specs.Table.{number};
ghost use Rattle.col_text.specs.NumValues.{num_values_of};

use crate::bar::Bar;
use crate::look_number::LookNumber;
use crate::places::counts_of_places;
use crate::valued_rows::values_are_counted;
use col_dynamic::{DynamicColumn, NumValues};
use col_values::ColumnValues;
use std::alloc::{AllocError, Global};

/// At most so many bars, which together reach from the least to the greatest value of a column of
/// numbers, times or flags. Each is as wide as the others, but for the last, which may be shorter,
/// and has as many values as lie between its ends. Columns of other types have none. The values are
/// walked once, or not at all where there is one bar.
pub fn bars(alloc: Global, column: &DynamicColumn, count: usize) -> Result<Vec<Bar>, AllocError>
    ensures ok { IfOk result (λ bars. bars.items
        ≡ bars_of (type_of column.now) count (cells_of (content_of column.now))) }
    ensures all { IfOk result (λ bars. 0 < count → has_bars (type_of column.now) ≡ true
        → bar_total bars.items ≡ length (cells_of (content_of column.now))) }
{
    values_are_counted(column);
    match column {
        DynamicColumn::Bool(column) => number_bars(alloc, column.values(), count),
        DynamicColumn::I64(column) => number_bars(alloc, column.values(), count),
        DynamicColumn::U64(column) => number_bars(alloc, column.values(), count),
        DynamicColumn::DateTime(column) => number_bars(alloc, column.values(), count),
        _ => Ok(Vec::new(alloc)),
    }
}

// Those of numbers.
fn number_bars<T: LookNumber>(
    alloc: Global,
    values: &NumValues<T>,
    count: usize,
) -> Result<Vec<Bar>, AllocError>
    ensures ok { IfOk result (λ bars.
        let cells = map (λ x. number (T.number x)) (num_values_of values.now) in
        bars.items ≡ bars_between (least_cell cells) (greatest_cell cells) count cells) }
    ensures all { IfOk result (λ bars. 0 < count
        → bar_total bars.items ≡ length (num_values_of values.now)) }
{
    if count == 0 {
        return Ok(Vec::new(alloc));
    }
    if values.num_vals() == 0 {
        return Ok(Vec::new(alloc));
    }
    values.values_are_in_type();
    T::numbers_have_places();
    let least = values.min_value();
    let distance = values.max_value().to_u64() - least.to_u64();
    if count == 1 || distance == 0 {
        return one_bar(alloc, least, distance, values.num_vals());
    }
    let width = distance / count as u64 + 1;
    let len = (distance / width) as usize + 1;
    let counts = counts_of_places(alloc, values, least.to_u64(), width, len)?;
    bars_of_counts(alloc, least, distance, width, counts.as_slice())
}

// The bar of all values.
fn one_bar<T: LookNumber>(
    alloc: Global,
    least: T,
    distance: u64,
    count: u32,
) -> Result<Vec<Bar>, AllocError>
    ensures { IfOk result (λ bars. bars.items
        ≡ bar_at (T.number least) distance (suc distance) 0 count ∷ []) }
{
    let mut bars = Vec::new(alloc);
    bars.push(Bar {
        first: least.number_above(0),
        last: least.number_above(distance),
        count: u64::from(count),
    })?;
    Ok(bars)
}

// The bars of the counts of places, where the last place reaches as far as the distance.
fn bars_of_counts<T: LookNumber>(
    alloc: Global,
    least: T,
    distance: u64,
    width: u64,
    counts: &[u64],
) -> Result<Vec<Bar>, AllocError>
    requires wide { 0 < width }
    requires within { length counts.now ≤ suc (distance / width) }
    ensures { IfOk result (λ bars. bars.items
        ≡ bars_from (T.number least) distance width 0 counts.now) }
{
    let mut bars = Vec::with_capacity(alloc, counts.len())?;
    for (place, count) in counts.iter().enumerate() {
        bars.push(bar_of_place(least, distance, width, place as u64, *count))?;
    }
    Ok(bars)
}

// The bar of a place.
fn bar_of_place<T: LookNumber>(least: T, distance: u64, width: u64, place: u64, count: u64) -> Bar
    requires wide { 0 < width }
    requires within { place ≤ distance / width }
    ensures { result ≡ bar_at (T.number least) distance width place count }
{
    let start = place * width;
    let end = start + (width - 1).min(distance - start);
    Bar {
        first: least.number_above(start),
        last: least.number_above(end),
        count,
    }
}
