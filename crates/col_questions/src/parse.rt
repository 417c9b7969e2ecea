//! Reads queries from JSON.
ghost use Rattle.std.specs.Prelude.{◌≡◌, Option, codes, IfOk, IfErr, OnOk, IsSomeAnd, string_bytes};
ghost use Rattle.serde_json.specs.View.{view, items_view};
ghost use Rattle.serde_json.specs.Find.{as_str};
ghost use Rattle.col_program.specs.Queries.{is_word, has_of, range_of, only_where, joined_of, query_of, query_in, members_of, queries_of};
ghost use Rattle.col_questions.specs.Parsed.{joined_by};
ghost use Rattle.col_program.specs.Queries as definitions;
ghost use Rattle.col_questions.specs.Steps.{tree_of, PutsQuery, PutsMembers};

use crate::ends::value_of_type;
use crate::parts::as_type;
use crate::query::Query;
use crate::query_error::QueryError;
use crate::step::{Joint, Step};
use serde_json::Value;
use std::alloc::Global;

/// The query that a value is: an array `["all"]`, `["has",name,t]`, `["range",name,t,lo,hi]`,
/// `["not",q]`, `["and",[q,..]]` or `["or",[q,..]]`, with ends that are values of the type as
/// scripts write them.
pub fn parse_query(alloc: Global, value: &Value) -> Result<Query, QueryError>
    ensures ok { IfOk result (λ q. query_of (view value.now) ≡ Some (tree_of q)) }
    ensures shape { IfErr result (λ e. e ≡ QueryError.Shape → query_of (view value.now) ≡ None) }
{
    let mut steps = Vec::new(alloc);
    push_query(alloc, value, &mut steps)?;
    Ok(Query::from_steps(steps))
}

// Puts the steps of a query behind others.
#[cycle(query)]
fn push_query(alloc: Global, value: &Value, steps: &mut Vec<Step>) -> Result<(), QueryError>
    ensures ok { OnOk result (IsSomeAnd (query_of (view value.now))
        (PutsQuery steps.old.items steps.new.items)) }
    ensures shape { IfErr result (λ e. e ≡ QueryError.Shape → query_of (view value.now) ≡ None) }
{
    match value {
        Value::Array(items) => push_items(alloc, items, steps),
        _ => Err(QueryError::Shape),
    }
}

// The same of the items of an array.
#[cycle(query)]
fn push_items(alloc: Global, items: &Vec<Value>, steps: &mut Vec<Step>) -> Result<(), QueryError>
    ensures ok { OnOk result (IsSomeAnd (query_in (items_view items.now.items))
        (PutsQuery steps.old.items steps.new.items)) }
    ensures shape { IfErr result (λ e. e ≡ QueryError.Shape
        → query_in (items_view items.now.items) ≡ None) }
{
    match items.as_slice() {
        [word] => push_all(word, steps),
        [word, part] => push_joined(alloc, part, word, steps),
        [word, name, column_type] => push_has(alloc, word, name, column_type, steps),
        [word, name, column_type, lo, hi] => {
            push_range(alloc, word, name, column_type, lo, hi, steps)
        }
        _ => Err(QueryError::Shape),
    }
}

// A word in front of a query, or of a list of queries.
#[derive(Clone, Copy)]
enum Prefix {
    Not,
    Members(Joint),
}

// The word of a query that has a part.
fn prefix_of(word: &Value) -> Option<Prefix>
    ensures { (q : Option definitions.Query) (qs : Option definitions.Queries)
        → joined_of (view word.now) q qs ≡ joined_by result q qs }
{
    match word.as_str() {
        Some("not") => Some(Prefix::Not),
        Some("and") => Some(Prefix::Members(Joint::And)),
        Some("or") => Some(Prefix::Members(Joint::Or)),
        _ => None,
    }
}

// The same of a word and its part.
#[cycle(query)]
fn push_joined(
    alloc: Global,
    part: &Value,
    word: &Value,
    steps: &mut Vec<Step>,
) -> Result<(), QueryError>
    ensures ok { OnOk result (IsSomeAnd
        (joined_of (view word.now) (query_of (view part.now)) (members_of (view part.now)))
        (PutsQuery steps.old.items steps.new.items)) }
    ensures shape { IfErr result (λ e. e ≡ QueryError.Shape
        → joined_of (view word.now) (query_of (view part.now)) (members_of (view part.now))
        ≡ None) }
{
    match prefix_of(word) {
        Some(Prefix::Not) => {
            push_query(alloc, part, steps)?;
            steps.push(Step::Not)?;
            Ok(())
        }
        Some(Prefix::Members(joint)) => {
            steps.push(Step::Begin(joint))?;
            push_members(alloc, part, joint, steps)
        }
        None => Err(QueryError::Shape),
    }
}

// Puts the steps of each query of a list behind others, each joined to what is below it.
#[cycle(query)]
fn push_members(
    alloc: Global,
    part: &Value,
    joint: Joint,
    steps: &mut Vec<Step>,
) -> Result<(), QueryError>
    ensures ok { OnOk result (IsSomeAnd (members_of (view part.now))
        (PutsMembers joint steps.old.items steps.new.items)) }
    ensures shape { IfErr result (λ e. e ≡ QueryError.Shape → members_of (view part.now) ≡ None) }
{
    match part {
        Value::Array(members) => push_all_members(alloc, members, joint, steps),
        _ => Err(QueryError::Shape),
    }
}

// The same of the items of an array.
#[cycle(query)]
fn push_all_members(
    alloc: Global,
    members: &Vec<Value>,
    joint: Joint,
    steps: &mut Vec<Step>,
) -> Result<(), QueryError>
    ensures ok { OnOk result (IsSomeAnd (queries_of (items_view members.now.items))
        (PutsMembers joint steps.old.items steps.new.items)) }
    ensures shape { IfErr result (λ e. e ≡ QueryError.Shape
        → queries_of (items_view members.now.items) ≡ None) }
{
    for member in members {
        push_query(alloc, member, steps)?;
        steps.push(Step::Join(joint))?;
    }
    Ok(())
}

// Puts the step of ["all"] behind others.
fn push_all(word: &Value, steps: &mut Vec<Step>) -> Result<(), QueryError>
    ensures ok { OnOk result (IsSomeAnd
        (only_where (is_word (codes "all") (view word.now)) (Some definitions.all))
        (PutsQuery steps.old.items steps.new.items)) }
    ensures shape { IfErr result (λ e. e ≡ QueryError.Shape
        → only_where (is_word (codes "all") (view word.now)) (Some definitions.all) ≡ None) }
{
    if !is_word(word, "all") {
        return Err(QueryError::Shape);
    }
    steps.push(Step::All)?;
    Ok(())
}

// Puts the step of ["has",name,t] behind others.
fn push_has(
    alloc: Global,
    word: &Value,
    name: &Value,
    column_type: &Value,
    steps: &mut Vec<Step>,
) -> Result<(), QueryError>
    ensures ok { OnOk result (IsSomeAnd
        (only_where (is_word (codes "has") (view word.now))
        (has_of (view name.now) (view column_type.now)))
        (PutsQuery steps.old.items steps.new.items)) }
    ensures shape { IfErr result (λ e. e ≡ QueryError.Shape
        → only_where (is_word (codes "has") (view word.now))
        (has_of (view name.now) (view column_type.now)) ≡ None) }
{
    if !is_word(word, "has") {
        return Err(QueryError::Shape);
    }
    let Some(column_type) = as_type(column_type) else {
        return Err(QueryError::Shape);
    };
    let name = name_of(alloc, name)?;
    steps.push(Step::Has { name, column_type })?;
    Ok(())
}

// Puts the step of ["range",name,t,lo,hi] behind others.
fn push_range(
    alloc: Global,
    word: &Value,
    name: &Value,
    column_type: &Value,
    lo: &Value,
    hi: &Value,
    steps: &mut Vec<Step>,
) -> Result<(), QueryError>
    ensures ok { OnOk result (IsSomeAnd
        (only_where (is_word (codes "range") (view word.now))
        (range_of (view name.now) (view column_type.now) (view lo.now) (view hi.now)))
        (PutsQuery steps.old.items steps.new.items)) }
    ensures shape { IfErr result (λ e. e ≡ QueryError.Shape
        → only_where (is_word (codes "range") (view word.now))
        (range_of (view name.now) (view column_type.now) (view lo.now) (view hi.now)) ≡ None) }
{
    if !is_word(word, "range") {
        return Err(QueryError::Shape);
    }
    let Some(column_type) = as_type(column_type) else {
        return Err(QueryError::Shape);
    };
    let name = name_of(alloc, name)?;
    let lo = value_of_type(alloc, column_type, lo)?;
    let hi = value_of_type(alloc, column_type, hi)?;
    steps.push(Step::Range {
        name,
        column_type,
        lo,
        hi,
    })?;
    Ok(())
}

fn is_word(value: &Value, word: &str) -> bool
    ensures { result ≡ is_word word.now (view value.now) }
{
    match value.as_str() {
        Some(text) => text == word,
        None => false,
    }
}

fn name_of(alloc: Global, value: &Value) -> Result<String, QueryError>
    ensures ok { IfOk result (λ name. as_str (view value.now) ≡ Some (string_bytes name)) }
    ensures shape { IfErr result (λ e. e ≡ QueryError.Shape → as_str (view value.now) ≡ None) }
{
    match value.as_str() {
        Some(text) => Ok(String::from_str(alloc, text)?),
        None => Err(QueryError::Shape),
    }
}
