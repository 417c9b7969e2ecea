//! The keys of a file's columns.
ghost use Rattle.std.specs.Prelude.{◌≡◌, ◌==◌, not, map, filter, option_map};
ghost use Rattle.std.specs.List.{list_all};
ghost use Rattle.col_common.specs.Reading.{only_if, items};
ghost use Rattle.col_common.specs.Decoding.{Decodes};
ghost use Rattle.col_common.specs.Ascending.{is_ascending};
ghost use Rattle.col_model.specs.ColumnType.{is_numerical};
ghost use Rattle.col_model.specs.Keys.{is_name, key_bytes, key_of, keyed_length, key_table, total_length};
ghost use Rattle.col_types.specs.Kinds.{kind_of};
ghost use Rattle.col_keys.specs.KeyTables.{key_seen, keyed, all_keyed, keys_seen};

use crate::column_key::ColumnKey;
use col_common::{ColumnarError, back_of, front_of, read_vint};
use col_types::ColumnType;
use std::alloc::Global;
use std::str;

/// A key, and how many bytes its column takes.
#[derive(Debug, Drop)]
pub struct KeyedLength {
    pub key: ColumnKey,
    pub num_bytes: u64,
}

/// The keys that all the bytes spell, each with its column's length.
#[tactic(auto, unfolding(col_model::specs::Keys::key_table))]
pub fn parse_key_table(alloc: Global, bytes: &[u8]) -> Result<Vec<KeyedLength>, ColumnarError>
    ensures { Decodes (λ found. all_keyed found.items) result (key_table bytes.now) }
{
    let Some((count, rest)) = read_vint(bytes) else {
        return Err(ColumnarError::InvalidData);
    };
    let (found, rest) = parse_keyed_lengths(alloc, count, rest)?;
    if rest.is_empty() && keys_ascend(&found) && numerical_names_ascend(&found) {
        Ok(found)
    } else {
        Err(ColumnarError::InvalidData)
    }
}

/// Whether the columns take just so many bytes together.
pub fn take_all(keys: &[KeyedLength], num_bytes: u64) -> bool
    ensures { result ≡ (total_length (all_keyed keys.now) == num_bytes) }
{
    let mut left = num_bytes;
    for entry in keys {
        if entry.num_bytes > left {
            return false;
        }
        left -= entry.num_bytes;
    }
    left == 0
}

// So many keys, each with its column's length, and the bytes behind them.
fn parse_keyed_lengths(
    alloc: Global,
    count: u64,
    bytes: &[u8],
) -> Result<(Vec<KeyedLength>, &[u8]), ColumnarError>
    ensures { Decodes (λ p. (all_keyed p.0.items, p.1.now)) result
        (items keyed_length count bytes.now) }
{
    let mut found = Vec::new(alloc);
    let mut rest = bytes;
    for _ in 0..count {
        let (entry, after) = parse_keyed_length(alloc, rest)?;
        found.push(entry)?;
        rest = after;
    }
    Ok((found, rest))
}

// The key with its column's length at the front, and the bytes behind them.
#[tactic(auto, unfolding(col_model::specs::Keys::keyed_length))]
fn parse_keyed_length(alloc: Global, bytes: &[u8]) -> Result<(KeyedLength, &[u8]), ColumnarError>
    ensures { Decodes (λ p. (keyed p.0, p.1.now)) result (keyed_length bytes.now) }
{
    let Some((key_len, rest)) = read_vint(bytes) else {
        return Err(ColumnarError::InvalidData);
    };
    let Some((key, rest)) = front_of(key_len, rest) else {
        return Err(ColumnarError::InvalidData);
    };
    let key = parse_key(alloc, key)?;
    let Some((num_bytes, rest)) = read_vint(rest) else {
        return Err(ColumnarError::InvalidData);
    };
    Ok((KeyedLength { key, num_bytes }, rest))
}

// The key that the bytes spell.
#[tactic(auto, unfolding(col_model::specs::Keys::key_of))]
fn parse_key(alloc: Global, bytes: &[u8]) -> Result<ColumnKey, ColumnarError>
    ensures { Decodes key_seen result (key_of bytes.now) }
{
    let Some((name, end)) = back_of(2, bytes) else {
        return Err(ColumnarError::InvalidData);
    };
    let Ok(column_type) = ColumnType::try_from_code(end[1]) else {
        return Err(ColumnarError::InvalidData);
    };
    let Some(name) = name_of(name) else {
        return Err(ColumnarError::InvalidData);
    };
    if end[0] != 0 {
        return Err(ColumnarError::InvalidData);
    }
    let name = String::from_str(alloc, name)?;
    Ok(ColumnKey { name, column_type })
}

/// The bytes as a name: UTF-8 without a zero byte.
pub fn name_of(bytes: &[u8]) -> Option<&str>
    ensures { option_map (λ name. name.now) result ≡ only_if (is_name bytes.now) bytes.now }
{
    if !has_no_zero(bytes) {
        return None;
    }
    match str::from_utf8(bytes) {
        Ok(name) => Some(name),
        Err(_) => None,
    }
}

fn has_no_zero(bytes: &[u8]) -> bool
    ensures { result ≡ list_all (λ b. not (b == 0)) bytes.now }
{
    bytes.iter().all(|byte| *byte != 0)
}

// Whether each key's bytes stand before the next one's.
fn keys_ascend(keys: &[KeyedLength]) -> bool
    ensures { result ≡ is_ascending (map key_bytes (keys_seen keys.now)) }
{
    for i in 1..keys.len() {
        if !keys[i - 1].key.is_before(&keys[i].key) {
            return false;
        }
    }
    true
}

// Whether the names of the numerical columns ascend.
fn numerical_names_ascend(keys: &[KeyedLength]) -> bool
    ensures { result ≡ is_ascending
        (map (λ k. k.name) (filter (λ k. is_numerical k.column_type) (keys_seen keys.now))) }
{
    let mut last: Option<&str> = None;
    for entry in keys {
        if is_of_number(entry.key.column_type) {
            let name = entry.key.name.as_str();
            if let Some(last) = last
                && last >= name
            {
                return false;
            }
            last = Some(name);
        }
    }
    true
}

fn is_of_number(column_type: ColumnType) -> bool
    ensures { result ≡ is_numerical (kind_of column_type) }
{
    matches!(column_type, ColumnType::I64 | ColumnType::U64)
}
