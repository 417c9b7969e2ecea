//! The lines of a set's script.
ghost use Rattle.std.specs.Prelude.{◌≡◌, IfOk, option_and_then, option_map, [], ◌∷◌, map};
ghost use Rattle.serde_json.specs.View.{view};
ghost use Rattle.col_program.specs.Script.{line_among, shapes};
ghost use Rattle.col_program.specs.Values.{as_list};
ghost use Rattle.col_lines.specs.Lines.{script_line_of};
ghost use Rattle.col_set_script.specs.SetScripts.{of_line, drop_line, compact_line, look_line, set_line_among, set_line_spelled};
ghost use Rattle.col_set_script.specs.Lines.{set_line_of};

use crate::ids::as_ids;
use crate::step::Lookup;
use col_common::RowId;
use col_lines::{Call, Line, parse_json, parse_plain, parse_shape};
use col_questions::{as_type, take_ends, take_text};
use json::Scratch;
use serde_json::Value;
use std::alloc::{AllocError, Global};

// What a line says.
#[derive(Drop)]
pub(crate) enum SetLine {
    Segment(u32),
    Record(Call),
    Drop(Vec<RowId>),
    Compact,
    Find(Lookup),
}

// The line that a piece of a set's script spells, none of a bad one.
pub(crate) fn read_set_line(
    alloc: Global,
    scratch: &mut Scratch,
    piece: &[u8],
) -> Result<Option<SetLine>, AllocError>
    ensures { IfOk result (λ line. option_map set_line_of line ≡ set_line_spelled piece.now) }
{
    match parse_plain(alloc, scratch, piece)? {
        Some(line) => Ok(segment_line(line)),
        None => parse_any(alloc, piece),
    }
}

// The line, if it is one of a segment.
fn segment_line(line: Line) -> Option<SetLine>
    ensures { option_map set_line_of result ≡ of_line (script_line_of line) }
{
    match line {
        Line::Segment(num_docs) => Some(SetLine::Segment(num_docs)),
        Line::Record(call) => Some(SetLine::Record(call)),
        Line::Require { .. } | Line::Order(_) | Line::Ask(_) => None,
    }
}

// The line, by way of its JSON value.
#[tactic(auto, unfolding(crate::specs::SetScripts::set_line_spelled))]
fn parse_any(alloc: Global, piece: &[u8]) -> Result<Option<SetLine>, AllocError>
    ensures { IfOk result (λ line. option_map set_line_of line ≡ set_line_spelled piece.now) }
{
    match parse_json(alloc, piece)? {
        Some(value) => parse_array(alloc, value),
        None => Ok(None),
    }
}

fn parse_array(alloc: Global, value: Value) -> Result<Option<SetLine>, AllocError>
    ensures { IfOk result (λ line. option_map set_line_of line
        ≡ option_and_then set_line_among (as_list (view value))) }
{
    match value {
        Value::Array(mut items) => parse_items(alloc, items.as_mut_slice()),
        _ => Ok(None),
    }
}

fn parse_items(alloc: Global, items: &mut [Value]) -> Result<Option<SetLine>, AllocError>
    ensures { IfOk result (λ line. option_map set_line_of line
        ≡ set_line_among (map view items.old)) }
{
    match items {
        [head, rest @ ..] => parse_worded(alloc, head, rest),
        _ => Ok(None),
    }
}

// The line of a first word and the parts behind it.
fn parse_worded(
    alloc: Global,
    head: &Value,
    rest: &mut [Value],
) -> Result<Option<SetLine>, AllocError>
    ensures { IfOk result (λ line. option_map set_line_of line
        ≡ set_line_among (view head.now ∷ map view rest.old)) }
{
    let Some(word) = head.as_str() else {
        return Ok(None);
    };
    match word {
        "drop" => parse_drop(alloc, rest),
        "compact" => Ok(parse_compact(rest)),
        "find" => parse_look(alloc, rest),
        _ => parse_segment_line(alloc, head, rest),
    }
}

// A line as other scripts have it.
fn parse_segment_line(
    alloc: Global,
    head: &Value,
    rest: &mut [Value],
) -> Result<Option<SetLine>, AllocError>
    ensures { IfOk result (λ line. option_map set_line_of line
        ≡ option_and_then of_line (line_among shapes (view head.now ∷ map view rest.old))) }
{
    match parse_shape(alloc, head, rest)? {
        Some(line) => Ok(segment_line(line)),
        None => Ok(None),
    }
}

fn parse_drop(alloc: Global, items: &[Value]) -> Result<Option<SetLine>, AllocError>
    ensures { IfOk result (λ line. option_map set_line_of line
        ≡ drop_line (map view items.now)) }
{
    match items {
        [ids] => read_drop(alloc, ids),
        _ => Ok(None),
    }
}

fn read_drop(alloc: Global, ids: &Value) -> Result<Option<SetLine>, AllocError>
    ensures { IfOk result (λ line. option_map set_line_of line
        ≡ drop_line (view ids.now ∷ [])) }
{
    match as_ids(alloc, ids)? {
        Some(ids) => Ok(Some(SetLine::Drop(ids))),
        None => Ok(None),
    }
}

fn parse_compact(items: &[Value]) -> Option<SetLine>
    ensures { option_map set_line_of result ≡ compact_line (map view items.now) }
{
    match items {
        [] => Some(SetLine::Compact),
        _ => None,
    }
}

fn parse_look(alloc: Global, items: &mut [Value]) -> Result<Option<SetLine>, AllocError>
    ensures { IfOk result (λ line. option_map set_line_of line
        ≡ look_line (map view items.old)) }
{
    match items {
        [name, column_type, lo, hi] => read_look(alloc, name, column_type, lo, hi),
        _ => Ok(None),
    }
}

// The ends stand last, so that nothing is let go behind them.
fn read_look(
    alloc: Global,
    name: &mut Value,
    column_type: &Value,
    lo: &mut Value,
    hi: &mut Value,
) -> Result<Option<SetLine>, AllocError>
    ensures { IfOk result (λ line. option_map set_line_of line
        ≡ look_line (view name.old ∷ view column_type.now ∷ view lo.old ∷ view hi.old ∷ [])) }
{
    let Some(name) = take_text(name) else {
        return Ok(None);
    };
    let Some(column_type) = as_type(column_type) else {
        return Ok(None);
    };
    match take_ends(alloc, column_type, lo, hi)? {
        Some(ends) => Ok(Some(SetLine::Find(Lookup { name, ends }))),
        None => Ok(None),
    }
}
