//! The type of the column that a merge makes of one name and category.
ghost use Rattle.std.specs.Prelude.{◌≡◌, List, ℕ, ◌<◌, ◌||◌, map, length, slice_get, slice_index, slice_index_or, option_map, None, IfSome};
ghost use Rattle.std.specs.List.{AllByRecursion};
ghost use Rattle.col_model.specs.Category.{Category};
ghost use Rattle.col_model.specs.ColumnType.{is_numerical};
ghost use Rattle.col_model.specs.Merge.{shared_type};
ghost use Rattle.col_types.specs.Kinds.{kind_of};
ghost use Rattle.col_values.specs.Values.{passes};
ghost use Rattle.col_dynamic.specs.Dynamic.{type_of};
ghost use Rattle.col_dynamic.specs.declared.dynamic_column.DynamicColumn.TheVariants as columns;
ghost use Rattle.col_merge_slot.specs.Kept.{IsOwn};
ghost use Rattle.col_merge_slot.specs.Segments.{where_set, kept_of, column_seen, IsOfCategory};
ghost use Rattle.col_merge_slot.specs.SlotTypes.{HaveSeen, is_signed, is_low, is_high, type_seen};
ghost use Rattle.col_merge_slot.specs.Taken.{FitAs};

use col_dynamic::{ColumnType, DynamicColumn, NumColumn};

/// The type that the columns share whose flags are set, else the numerical one that holds all their
/// numbers; none where there is no such column or no such type.
pub fn slot_type(columns: &[Option<DynamicColumn>], kept: &[bool]) -> Option<ColumnType>
    requires { length kept.now ≡ length columns.now }
    ensures shared { (category : Category) (name : List ℕ) →
        AllByRecursion (IsOfCategory category) (kept_of columns.now kept.now) →
        option_map kind_of result
        ≡ shared_type (map (column_seen name) (kept_of columns.now kept.now)) }
    ensures fits { AllByRecursion IsOwn (kept_of columns.now kept.now) →
        IfSome result (λ t. FitAs (kind_of t) None (kept_of columns.now kept.now)) }
{
    let first = first_type(columns, kept)?;
    if !is_numerical(first) {
        return Some(first);
    }
    numbers_seen(columns, kept).numerical_type()
}

// Whether the type is i64 or u64.
fn is_numerical(column_type: ColumnType) -> bool
    ensures { result ≡ is_numerical (kind_of column_type) }
{
    column_type.numerical_type().is_some()
}

// The type of the first column whose flag is set.
fn first_type(columns: &[Option<DynamicColumn>], kept: &[bool]) -> Option<ColumnType>
    requires { length kept.now ≡ length columns.now }
    ensures { option_map kind_of result
        ≡ option_map type_of (slice_get (kept_of columns.now kept.now) 0) }
{
    for segment in 0..columns.len() {
        if let Some(column) = column_at(columns, kept, segment) {
            return Some(column.column_type());
        }
    }
    None
}

// The column of a segment, where its flag is set.
fn column_at<'a>(
    columns: &'a [Option<DynamicColumn>],
    kept: &[bool],
    segment: usize,
) -> Option<&'a DynamicColumn>
    requires there { segment < length columns.now }
    requires flags { length kept.now ≡ length columns.now }
    ensures { option_map (λ c. c.now) result
        ≡ slice_index_or (where_set columns.now kept.now) segment None }
{
    if !kept[segment] {
        return None;
    }
    columns[segment].as_ref()
}

// What was seen of columns: whether one is of type i64, and whether some number may not be of type
// u64, or of i64.
#[derive(Clone, Copy)]
struct NumbersSeen {
    some_signed: bool,
    some_low: bool,
    some_high: bool,
}

impl NumbersSeen {
    // One column more.
    fn with_column(self, column: &DynamicColumn) -> NumbersSeen
        ensures signed { result.some_signed ≡ (self.some_signed || is_signed column.now) }
        ensures low { result.some_low ≡ (self.some_low || is_low column.now) }
        ensures high { result.some_high ≡ (self.some_high || is_high column.now) }
    {
        NumbersSeen {
            some_signed: self.some_signed || column.is_i64(),
            some_low: self.some_low || is_low(column),
            some_high: self.some_high || is_high(column),
        }
    }

    // The numerical type that holds all numbers.
    fn numerical_type(self) -> Option<ColumnType>
        ensures { option_map kind_of result ≡ type_seen self }
    {
        if self.some_high {
            if self.some_low {
                return None;
            }
            return Some(ColumnType::U64);
        }
        if self.some_signed {
            return Some(ColumnType::I64);
        }
        Some(ColumnType::U64)
    }
}

// What is seen of the columns whose flags are set, each by its bounds.
fn numbers_seen(columns: &[Option<DynamicColumn>], kept: &[bool]) -> NumbersSeen
    requires { length kept.now ≡ length columns.now }
    ensures { HaveSeen (where_set columns.now kept.now) result }
{
    let mut seen = NumbersSeen {
        some_signed: false,
        some_low: false,
        some_high: false,
    };
    for segment in 0..columns.len() {
        if let Some(column) = column_at(columns, kept, segment) {
            seen = seen.with_column(column);
        }
    }
    seen
}

// Whether some number is one that a u64 may not be.
fn is_low(column: &DynamicColumn) -> bool
    ensures { result ≡ is_low column.now }
{
    match column {
        DynamicColumn::I64(column) => has_low(column),
        _ => false,
    }
}

// Whether some number is one that may not become an i64.
fn is_high(column: &DynamicColumn) -> bool
    ensures { result ≡ is_high column.now }
{
    match column {
        DynamicColumn::U64(column) => has_high(column),
        _ => false,
    }
}

// Whether the least number is below 0.
fn has_low(column: &NumColumn<i64>) -> bool
    ensures { result ≡ is_low (columns.I64 column.now) }
{
    column.values_are_counted();
    column.values().values_are_in_type();
    column.min_value() < 0
}

// Whether the greatest number isn't below the greatest i64.
fn has_high(column: &NumColumn<u64>) -> bool
    ensures { result ≡ is_high (columns.U64 column.now) }
{
    column.values_are_counted();
    column.values().values_are_in_type();
    column.max_value() >= i64::MAX.cast_unsigned()
}
