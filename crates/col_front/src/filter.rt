//! Filters as people write them, as queries in JSON.

use crate::tokens::{Sign, Token};
use std::alloc::{AllocError, Global};

/// Why a filter isn't taken.
#[derive(Drop)]
pub enum FilterError {
    OutOfMemory,
    /// What is wrong with it.
    Shape(String),
}

impl From<AllocError> for FilterError {
    fn from(_: AllocError) -> Self {
        FilterError::OutOfMemory
    }
}

/// A test of one field.
#[derive(Drop)]
pub struct Condition {
    pub name: String,
    pub test: Test,
}

#[derive(Drop)]
pub enum Test {
    /// It has a value.
    Has,
    /// It has one that compares so with this.
    Sign(Sign, String),
    /// It has one between two ends, of which one may be open.
    Between(Option<String>, Option<String>),
}

/// What stands in a filter, one behind another.
#[derive(Drop)]
pub enum Item {
    Condition(Condition),
    And,
    Or,
    Not,
    Open,
    Close,
}

// What was read of a condition.
#[derive(Drop)]
enum State {
    /// A condition is wanted.
    Start,
    Named(String),
    Signed(String, Sign),
    Valued(String, String),
    Low(String, String),
    Upper(String, Option<String>),
    /// A condition is whole.
    Whole,
}

/// The items of a filter.
pub fn items_of(alloc: Global, tokens: Vec<Token>) -> Result<Vec<Item>, FilterError> {
    let mut items = Vec::new(alloc);
    let mut state = State::Start;
    for token in tokens {
        state = step(alloc, &mut items, state, token)?;
    }
    end(alloc, &mut items, state)?;
    Ok(items)
}

fn shape(alloc: Global, text: &str) -> Result<FilterError, AllocError> {
    Ok(FilterError::Shape(String::from_str(alloc, text)?))
}

// What a token is where a condition may begin or end.
fn keyword(token: &Token) -> Option<Item> {
    match token {
        Token::Open => Some(Item::Open),
        Token::Close => Some(Item::Close),
        Token::Word(word) => match word.as_str() {
            "and" | "AND" => Some(Item::And),
            "or" | "OR" => Some(Item::Or),
            "not" | "NOT" => Some(Item::Not),
            _ => None,
        },
        _ => None,
    }
}

fn step(
    alloc: Global,
    items: &mut Vec<Item>,
    state: State,
    token: Token,
) -> Result<State, FilterError> {
    match state {
        State::Start => start(alloc, items, token),
        State::Named(name) => named(alloc, items, name, token),
        State::Signed(name, sign) => signed(alloc, items, name, sign, token),
        State::Valued(name, value) => valued(alloc, items, name, value, token),
        State::Low(name, low) => match token {
            Token::To => Ok(State::Upper(name, Some(low))),
            _ => Err(unsigned(alloc, name.as_str(), low.as_str())?),
        },
        State::Upper(name, low) => upper(alloc, items, name, low, token),
        State::Whole => whole(alloc, items, token),
    }
}

fn unsigned(alloc: Global, name: &str, value: &str) -> Result<FilterError, AllocError> {
    Ok(FilterError::Shape(format!(in alloc;
        "behind `{name}` stands =, !=, <, <=, >, >= or a range a..b, and not `{value}` alone"
    )?))
}

// A condition, or what stands in front of one.
fn start(alloc: Global, items: &mut Vec<Item>, token: Token) -> Result<State, FilterError> {
    match keyword(&token) {
        Some(Item::Not) => items.push(Item::Not).map_err(AllocError::from)?,
        Some(Item::Open) => items.push(Item::Open).map_err(AllocError::from)?,
        Some(_) => return Err(shape(alloc, "a field is wanted in front of `and`, `or` or `)`")?),
        None => match token {
            Token::Word(name) | Token::Quoted(name) => return Ok(State::Named(name)),
            _ => return Err(shape(alloc, "a field is wanted in front of a sign")?),
        },
    }
    Ok(State::Start)
}

fn named(
    alloc: Global,
    items: &mut Vec<Item>,
    name: String,
    token: Token,
) -> Result<State, FilterError> {
    if keyword(&token).is_some() {
        push_condition(items, name, Test::Has)?;
        return whole(alloc, items, token);
    }
    match token {
        Token::Sign(sign) => Ok(State::Signed(name, sign)),
        Token::To => Ok(State::Upper(name, None)),
        Token::Word(low) | Token::Quoted(low) => Ok(State::Low(name, low)),
        _ => Err(unsigned(alloc, name.as_str(), ")")?),
    }
}

fn signed(
    alloc: Global,
    items: &mut Vec<Item>,
    name: String,
    sign: Sign,
    token: Token,
) -> Result<State, FilterError> {
    match token {
        Token::Word(value) | Token::Quoted(value) => {
            if sign == Sign::Equal {
                return Ok(State::Valued(name, value));
            }
            push_condition(items, name, Test::Sign(sign, value))?;
            Ok(State::Whole)
        }
        Token::To if sign == Sign::Equal => Ok(State::Upper(name, None)),
        _ => Err(shape(alloc, "a value is wanted behind a sign")?),
    }
}

// Behind an equals sign and a value: two dots make a range of it.
fn valued(
    alloc: Global,
    items: &mut Vec<Item>,
    name: String,
    value: String,
    token: Token,
) -> Result<State, FilterError> {
    if matches!(token, Token::To) {
        return Ok(State::Upper(name, Some(value)));
    }
    push_condition(items, name, Test::Sign(Sign::Equal, value))?;
    whole(alloc, items, token)
}

fn upper(
    alloc: Global,
    items: &mut Vec<Item>,
    name: String,
    low: Option<String>,
    token: Token,
) -> Result<State, FilterError> {
    if keyword(&token).is_some() {
        push_condition(items, name, Test::Between(low, None))?;
        return whole(alloc, items, token);
    }
    match token {
        Token::Word(high) | Token::Quoted(high) => {
            push_condition(items, name, Test::Between(low, Some(high)))?;
            Ok(State::Whole)
        }
        _ => Err(shape(alloc, "a value is wanted behind `..`")?),
    }
}

// What stands behind a condition.
fn whole(alloc: Global, items: &mut Vec<Item>, token: Token) -> Result<State, FilterError> {
    match keyword(&token) {
        Some(Item::And) => items.push(Item::And).map_err(AllocError::from)?,
        Some(Item::Or) => items.push(Item::Or).map_err(AllocError::from)?,
        Some(Item::Close) => {
            items.push(Item::Close).map_err(AllocError::from)?;
            return Ok(State::Whole);
        }
        _ => return Err(shape(alloc, "`and` or `or` is wanted between two conditions")?),
    }
    Ok(State::Start)
}

fn push_condition(items: &mut Vec<Item>, name: String, test: Test) -> Result<(), AllocError> {
    items.push(Item::Condition(Condition { name, test }))?;
    Ok(())
}

// Takes what stands last in a filter.
fn end(alloc: Global, items: &mut Vec<Item>, state: State) -> Result<(), FilterError> {
    match state {
        State::Named(name) => push_condition(items, name, Test::Has)?,
        State::Valued(name, value) => {
            push_condition(items, name, Test::Sign(Sign::Equal, value))?;
        }
        State::Upper(name, low) => push_condition(items, name, Test::Between(low, None))?,
        State::Low(name, low) => {
            return Err(unsigned(alloc, name.as_str(), low.as_str())?);
        }
        State::Whole => {}
        State::Start => return Err(shape(alloc, "a field is wanted at the end")?),
        State::Signed(_, _) => return Err(shape(alloc, "a value is wanted at the end")?),
    }
    Ok(())
}

// What waits for the conditions behind it.
#[derive(Clone, Copy, PartialEq, Eq)]
enum Waiting {
    Open,
    Or,
    And,
    Not,
}

/// Joins the queries of conditions, in JSON, as the items say: `not` binds more than `and`, and
/// that more than `or`. `text_of` gives the query of a condition.
pub fn joined<F>(alloc: Global, items: &[Item], mut text_of: F) -> Result<String, FilterError>
where
    F: FnMut(&Condition) -> Result<String, FilterError>,
    requires { F.IsAlwaysCallable text_of }
{
    let mut waiting = Vec::new(alloc);
    let mut queries = Vec::new(alloc);
    for item in items {
        match item {
            Item::Condition(condition) => {
                queries.push(text_of(condition)?).map_err(AllocError::from)?;
            }
            Item::Not => waiting.push(Waiting::Not).map_err(AllocError::from)?,
            Item::Open => waiting.push(Waiting::Open).map_err(AllocError::from)?,
            Item::And => {
                join_while(alloc, &mut waiting, &mut queries, Waiting::And)?;
                waiting.push(Waiting::And).map_err(AllocError::from)?;
            }
            Item::Or => {
                join_while(alloc, &mut waiting, &mut queries, Waiting::Or)?;
                waiting.push(Waiting::Or).map_err(AllocError::from)?;
            }
            Item::Close => {
                join_while(alloc, &mut waiting, &mut queries, Waiting::Or)?;
                if waiting.pop() != Some(Waiting::Open) {
                    return Err(shape(alloc, "a `)` has no `(`")?);
                }
            }
        }
    }
    join_while(alloc, &mut waiting, &mut queries, Waiting::Or)?;
    if !waiting.is_empty() {
        return Err(shape(alloc, "a `(` has no `)`")?);
    }
    match queries.pop() {
        Some(query) => Ok(query),
        None => Ok(String::from_str(alloc, "[\"all\"]")?),
    }
}

// Joins what binds at least as much.
fn join_while(
    alloc: Global,
    waiting: &mut Vec<Waiting>,
    queries: &mut Vec<String>,
    least: Waiting,
) -> Result<(), AllocError> {
    for _ in 0..waiting.len() {
        let Some(last) = waiting.last() else {
            return Ok(());
        };
        if strength_of(*last) < strength_of(least) {
            return Ok(());
        }
        let last = *last;
        let _ = waiting.pop();
        join_last(alloc, queries, last)?;
    }
    Ok(())
}

fn strength_of(waiting: Waiting) -> u8 {
    match waiting {
        Waiting::Open => 0,
        Waiting::Or => 1,
        Waiting::And => 2,
        Waiting::Not => 3,
    }
}

fn join_last(alloc: Global, queries: &mut Vec<String>, joint: Waiting) -> Result<(), AllocError> {
    let Some(right) = queries.pop() else {
        return Ok(());
    };
    let text = if joint == Waiting::Not {
        format!(in alloc; "[\"not\",{}]", right.as_str())?
    } else {
        let word = if joint == Waiting::And { "and" } else { "or" };
        let left = queries.pop().unwrap_or(String::new(alloc));
        format!(in alloc; "[\"{word}\",[{},{}]]", left.as_str(), right.as_str())?
    };
    queries.push(text)?;
    Ok(())
}
