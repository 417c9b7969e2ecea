//! The lines of a script.
ghost use Rattle.std.specs.Prelude.{◌≡◌, IfOk, option_and_then, option_map, [], ◌∷◌, map};
ghost use Rattle.std.specs.Str.{is_utf8};
ghost use Rattle.serde_json.specs.Read.{read};
ghost use Rattle.serde_json.specs.View.{view};
ghost use Rattle.col_common.specs.Reading.{only_if};
ghost use Rattle.col_program.specs.Script.{line_among, line_spelled, shapes, segment_line, type_line, sorted_line, tie_line, value_line, require_line, order_line, sort_line, find_line, facet_line, query_line};
ghost use Rattle.col_program.specs.Values.{as_list};
ghost use Rattle.col_types.specs.Kinds.{kind_of};
ghost use Rattle.col_lines.specs.Lines.{script_line_of, control_shapes};

use crate::parts::{as_rows, as_u32};
use crate::plain::parse_plain;
use crate::row_order::{RowOrder, SortKey};
use crate::term_type::{TermType, as_terms};
use col_common::DocId;
use col_questions::{
    Find, QueryError, Question, TypedValue, as_type, parse_query, take_ends, take_text, take_value,
};
use col_types::ColumnType;
use json::Scratch;
use serde_json::Value;
use std::alloc::{AllocError, Global};

/// A call that records a value, a column's type, or the start of a tie-breaker.
#[derive(Debug, Drop)]
pub enum Call {
    Value {
        doc: DocId,
        name: String,
        value: TypedValue,
    },
    Type {
        name: String,
        column_type: ColumnType,
    },
    Sorted {
        name: String,
        term_type: TermType,
    },
    Tie {
        name: String,
        start: i64,
    },
}

/// What a line says.
#[derive(Debug, Drop)]
pub enum Line {
    Segment(u32),
    Record(Call),
    Require {
        name: String,
        column_type: ColumnType,
    },
    Order(RowOrder),
    Ask(Question),
}

/// The line that a piece of a script spells, none of a bad one.
pub fn parse_line(alloc: Global, piece: &[u8]) -> Result<Option<Line>, AllocError>
    ensures { IfOk result (λ line. option_map script_line_of line ≡ line_spelled piece.now) }
{
    let mut scratch = Scratch::new(alloc);
    read_line(alloc, &mut scratch, piece)
}

/// The same, with the memory that reading needs.
pub fn read_line(
    alloc: Global,
    scratch: &mut Scratch,
    piece: &[u8],
) -> Result<Option<Line>, AllocError>
    ensures { IfOk result (λ line. option_map script_line_of line ≡ line_spelled piece.now) }
{
    match parse_plain(alloc, scratch, piece)? {
        Some(line) => Ok(Some(line)),
        None => parse_any(alloc, piece),
    }
}

// The line, by way of its JSON value.
#[tactic(auto, unfolding(col_program::specs::Script::line_spelled_by))]
fn parse_any(alloc: Global, piece: &[u8]) -> Result<Option<Line>, AllocError>
    ensures { IfOk result (λ line. option_map script_line_of line ≡ line_spelled piece.now) }
{
    match parse_json(alloc, piece)? {
        Some(value) => parse_array(alloc, value),
        None => Ok(None),
    }
}

/// The JSON value of a piece, none where it is no JSON text.
pub fn parse_json(alloc: Global, piece: &[u8]) -> Result<Option<Value>, AllocError>
    ensures { IfOk result (λ value. option_map view value
        ≡ option_and_then read (only_if (is_utf8 piece.now) piece.now)) }
{
    match Value::from_slice(alloc, piece) {
        Ok(value) => Ok(Some(value)),
        Err(error) => {
            if error.is_memory() {
                Err(AllocError)
            } else {
                Ok(None)
            }
        }
    }
}

fn parse_array(alloc: Global, value: Value) -> Result<Option<Line>, AllocError>
    ensures { IfOk result (λ line. option_map script_line_of line
        ≡ option_and_then (line_among shapes) (as_list (view value))) }
{
    match value {
        Value::Array(mut items) => parse_items(alloc, items.as_mut_slice()),
        _ => Ok(None),
    }
}

fn parse_items(alloc: Global, items: &mut [Value]) -> Result<Option<Line>, AllocError>
    ensures { IfOk result (λ line. option_map script_line_of line
        ≡ line_among shapes (map view items.old)) }
{
    match items {
        [head, rest @ ..] => parse_shape(alloc, head, rest),
        _ => Ok(None),
    }
}

/// The line of a first word and the parts behind it, none of a bad one.
pub fn parse_shape(
    alloc: Global,
    head: &Value,
    rest: &mut [Value],
) -> Result<Option<Line>, AllocError>
    ensures { IfOk result (λ line. option_map script_line_of line
        ≡ line_among shapes (view head.now ∷ map view rest.old)) }
{
    match as_type(head) {
        Some(column_type) => parse_value(alloc, column_type, rest),
        None => parse_control(alloc, head, rest),
    }
}

// A line that isn't of a value.
fn parse_control(
    alloc: Global,
    head: &Value,
    rest: &mut [Value],
) -> Result<Option<Line>, AllocError>
    ensures { IfOk result (λ line. option_map script_line_of line
        ≡ line_among control_shapes (view head.now ∷ map view rest.old)) }
{
    let Some(word) = head.as_str() else {
        return Ok(None);
    };
    match word {
        "segment" => Ok(parse_segment(rest)),
        "type" => Ok(parse_type(rest)),
        "sorted" => Ok(parse_sorted(rest)),
        "tie" => Ok(parse_tie(rest)),
        "require" => Ok(parse_require(rest)),
        "order" => parse_order(alloc, rest),
        "sort" => Ok(parse_sort(rest)),
        "find" => parse_find(alloc, rest),
        "facet" => Ok(parse_facet(rest)),
        "query" => parse_query_line(alloc, rest),
        _ => Ok(None),
    }
}

fn parse_segment(items: &[Value]) -> Option<Line>
    ensures { option_map script_line_of result ≡ segment_line (map view items.now) }
{
    match items {
        [count] => Some(Line::Segment(as_u32(count)?)),
        _ => None,
    }
}

fn parse_type(items: &mut [Value]) -> Option<Line>
    ensures { option_map script_line_of result ≡ type_line (map view items.old) }
{
    let [name, column_type] = items else {
        return None;
    };
    let name = take_text(name)?;
    let column_type = as_type(column_type)?;
    Some(Line::Record(Call::Type { name, column_type }))
}

fn parse_sorted(items: &mut [Value]) -> Option<Line>
    ensures { option_map script_line_of result ≡ sorted_line (map view items.old) }
{
    match items {
        [name, term_type] => read_sorted(name, term_type),
        _ => None,
    }
}

fn read_sorted(name: &mut Value, term_type: &Value) -> Option<Line>
    ensures { option_map script_line_of result
        ≡ sorted_line (view name.old ∷ view term_type.now ∷ []) }
{
    let name = take_text(name)?;
    let column_type = as_type(term_type)?;
    let term_type = as_terms(column_type)?;
    Some(Line::Record(Call::Sorted { name, term_type }))
}

fn parse_tie(items: &mut [Value]) -> Option<Line>
    ensures { option_map script_line_of result ≡ tie_line (map view items.old) }
{
    let [name, start] = items else {
        return None;
    };
    let name = take_text(name)?;
    let start = start.as_i64()?;
    Some(Line::Record(Call::Tie { name, start }))
}

fn parse_value(
    alloc: Global,
    column_type: ColumnType,
    items: &mut [Value],
) -> Result<Option<Line>, AllocError>
    ensures { IfOk result (λ line. option_map script_line_of line
        ≡ value_line (kind_of column_type) (map view items.old)) }
{
    let [doc, name, value] = items else {
        return Ok(None);
    };
    let Some(doc) = as_u32(doc) else {
        return Ok(None);
    };
    let Some(name) = take_text(name) else {
        return Ok(None);
    };
    match take_value(alloc, column_type, value)? {
        Some(value) => Ok(Some(Line::Record(Call::Value { doc, name, value }))),
        None => Ok(None),
    }
}

fn parse_require(items: &mut [Value]) -> Option<Line>
    ensures { option_map script_line_of result ≡ require_line (map view items.old) }
{
    let [name, column_type] = items else {
        return None;
    };
    let name = take_text(name)?;
    let column_type = as_type(column_type)?;
    Some(Line::Require { name, column_type })
}

fn parse_order(alloc: Global, items: &[Value]) -> Result<Option<Line>, AllocError>
    ensures { IfOk result (λ line. option_map script_line_of line
        ≡ order_line (map view items.now)) }
{
    match items {
        [rows] => read_order(alloc, rows),
        _ => Ok(None),
    }
}

fn read_order(alloc: Global, rows: &Value) -> Result<Option<Line>, AllocError>
    ensures { IfOk result (λ line. option_map script_line_of line
        ≡ order_line (view rows.now ∷ [])) }
{
    match as_rows(alloc, rows)? {
        Some(rows) => Ok(Some(Line::Order(RowOrder::Named(rows)))),
        None => Ok(None),
    }
}

fn parse_sort(items: &mut [Value]) -> Option<Line>
    ensures { option_map script_line_of result ≡ sort_line (map view items.old) }
{
    let [name, column_type, reversed] = items else {
        return None;
    };
    let name = take_text(name)?;
    let column_type = as_type(column_type)?;
    let reversed = reversed.as_bool()?;
    let key = SortKey {
        name,
        column_type,
        reversed,
    };
    Some(Line::Order(RowOrder::Sorted(key)))
}

fn parse_find(alloc: Global, items: &mut [Value]) -> Result<Option<Line>, AllocError>
    ensures { IfOk result (λ line. option_map script_line_of line
        ≡ find_line (map view items.old)) }
{
    match items {
        [name, column_type, lo, hi, from, to] => {
            read_find(alloc, name, column_type, lo, hi, from, to)
        }
        _ => Ok(None),
    }
}

// The ends stand last, so that nothing is let go behind them.
fn read_find(
    alloc: Global,
    name: &mut Value,
    column_type: &Value,
    lo: &mut Value,
    hi: &mut Value,
    from: &Value,
    to: &Value,
) -> Result<Option<Line>, AllocError>
    ensures { IfOk result (λ line. option_map script_line_of line
        ≡ find_line (view name.old ∷ view column_type.now ∷ view lo.old ∷ view hi.old
        ∷ view from.now ∷ view to.now ∷ [])) }
{
    let Some(name) = take_text(name) else {
        return Ok(None);
    };
    let Some(column_type) = as_type(column_type) else {
        return Ok(None);
    };
    let Some(from) = as_u32(from) else {
        return Ok(None);
    };
    let Some(to) = as_u32(to) else {
        return Ok(None);
    };
    match take_ends(alloc, column_type, lo, hi)? {
        Some(ends) => Ok(Some(Line::Ask(Question::Find(Find {
            name,
            ends,
            from,
            to,
        })))),
        None => Ok(None),
    }
}

fn parse_facet(items: &mut [Value]) -> Option<Line>
    ensures { option_map script_line_of result ≡ facet_line (map view items.old) }
{
    let [name, column_type] = items else {
        return None;
    };
    let name = take_text(name)?;
    let column_type = as_type(column_type)?;
    Some(Line::Ask(Question::Facet { name, column_type }))
}

fn parse_query_line(alloc: Global, items: &[Value]) -> Result<Option<Line>, AllocError>
    ensures { IfOk result (λ line. option_map script_line_of line
        ≡ query_line (map view items.now)) }
{
    match items {
        [query] => read_query(alloc, query),
        _ => Ok(None),
    }
}

fn read_query(alloc: Global, query: &Value) -> Result<Option<Line>, AllocError>
    ensures { IfOk result (λ line. option_map script_line_of line
        ≡ query_line (view query.now ∷ [])) }
{
    match parse_query(alloc, query) {
        Ok(query) => Ok(Some(Line::Ask(Question::Query(query)))),
        Err(QueryError::Memory) => Err(AllocError),
        Err(QueryError::Shape) => Ok(None),
    }
}
