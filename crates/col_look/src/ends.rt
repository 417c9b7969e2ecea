//! The least and the greatest value of columns.
ghost use Rattle.std.specs.Prelude.{◌≡◌, ◌<◌, map, length, IfOk};
ghost use Rattle.col_dynamic.specs.Dynamic.{type_of, content_of};
ghost use Rattle.col_facet.specs.Facets.{facet_cell};
ghost use Rattle.col_facet.specs.Tables.{term_at};
ghost use Rattle.col_facet.specs.declared.facet_cell.FacetCell.TheVariants as cells;
ghost use Rattle.col_look.specs.Ends.{cells_of};
ghost use Rattle.col_look.specs.FacetEnds.{ends_of};
ghost use Rattle.col_text.specs.IpValues.{ip_values_of};
ghost use Rattle.col_text.specs.NumValues.{num_values_of};

use crate::look_number::LookNumber;
use col_dynamic::{BytesColumn, DynamicColumn, IpValues, NumValues};
use col_facet::FacetCell;
use col_types::TermBytes;
use col_values::ColumnValues;
use std::alloc::{AllocError, Global};

/// A least and a greatest cell, where there are cells.
pub(crate) type Ends = (Option<FacetCell>, Option<FacetCell>);

/// The least and the greatest cell of a column, by the bounds that it tells.
pub(crate) fn ends(alloc: Global, column: &DynamicColumn) -> Result<Ends, AllocError>
    ensures { IfOk result (λ ends. ends
        ≡ ends_of (map (facet_cell (type_of column.now)) (cells_of (content_of column.now)))) }
{
    crate::valued_rows::values_are_counted(column);
    match column {
        DynamicColumn::Bool(column) => Ok(number_ends(column.values())),
        DynamicColumn::I64(column) => Ok(number_ends(column.values())),
        DynamicColumn::U64(column) => Ok(number_ends(column.values())),
        DynamicColumn::IpAddr(column) => Ok(address_ends(column.values())),
        DynamicColumn::DateTime(column) => Ok(number_ends(column.values())),
        DynamicColumn::Bytes(column) => term_ends(alloc, column),
        DynamicColumn::Str(column) => term_ends(alloc, column.bytes_column()),
    }
}

// Those of numbers.
fn number_ends<T: LookNumber>(values: &NumValues<T>) -> Ends
    ensures { result ≡ ends_of (map (λ x. cells.Num (T.number x)) (num_values_of values.now)) }
{
    if values.num_vals() == 0 {
        return (None, None);
    }
    values.values_are_in_type();
    T::numbers_have_places();
    let least = FacetCell::Num(values.min_value().number_above(0));
    let greatest = FacetCell::Num(values.max_value().number_above(0));
    (Some(least), Some(greatest))
}

// Those of addresses, by the list behind them, which tells its least and its greatest one.
fn address_ends(values: &IpValues) -> Ends
    ensures { result ≡ ends_of (map (λ n. cells.Addr n) (ip_values_of values.now)) }
{
    let IpValues::Read(view) = values else {
        return (None, None);
    };
    let (numbers, _map) = view.parts();
    if numbers.num_vals() == 0 {
        return (None, None);
    }
    let least = FacetCell::Addr(numbers.min_value());
    let greatest = FacetCell::Addr(numbers.max_value());
    (Some(least), Some(greatest))
}

// Those of terms: terms ascend with their ordinals, so that the bounds of these tell them, whatever
// terms no row has.
fn term_ends(alloc: Global, column: &BytesColumn) -> Result<Ends, AllocError>
    ensures { IfOk result (λ ends. ends ≡ ends_of
        (map (term_at column.now.terms) (num_values_of column.now.ords.values))) }
{
    column.ordinals_are_told();
    let ords = column.ords().values();
    if ords.num_vals() == 0 {
        return Ok((None, None));
    }
    ords.values_are_in_type();
    let least = term_cell(alloc, column, ords.min_value())?;
    let greatest = term_cell(alloc, column, ords.max_value())?;
    Ok((Some(least), Some(greatest)))
}

// The term of an ordinal.
fn term_cell(alloc: Global, column: &BytesColumn, ord: u64) -> Result<FacetCell, AllocError>
    ensures { IfOk result (λ cell. cell ≡ term_at column.now.terms ord) }
{
    let term = match column.dictionary().term_at(ord) {
        Some(term) => term,
        None => &[],
    };
    Ok(FacetCell::Term(TermBytes::from_vec(Vec::from_slice(alloc, term)?)))
}
