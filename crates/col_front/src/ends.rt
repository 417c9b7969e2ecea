//! Values as people write them in a filter, as ends of ranges of a column's type.

use crate::tokens::Sign;
use col_types::ColumnType;
use jiff::tz::Offset;
use jiff::{Timestamp, civil};
use std::alloc::{AllocError, Global};
use std::net;

// The nanoseconds of a day.
const DAY: i128 = 86_400_000_000_000;

/// The first and the last number that a value stands for: a date alone stands for its day, and an
/// address with a length behind a slash for all that begin like it. None where the value isn't of
/// the type.
pub fn numbers_of(column_type: ColumnType, value: &str) -> Option<(i128, i128)> {
    match column_type {
        ColumnType::I64 | ColumnType::U64 => {
            let number = value.parse::<i128>().ok()?;
            Some((number, number))
        }
        ColumnType::Bool => match value {
            "true" => Some((1, 1)),
            "false" => Some((0, 0)),
            _ => None,
        },
        ColumnType::DateTime => times_of(value),
        ColumnType::IpAddr | ColumnType::Bytes | ColumnType::Str => None,
    }
}

fn times_of(value: &str) -> Option<(i128, i128)> {
    if let Ok(date) = value.parse::<civil::Date>()
        && value.len() == 10
    {
        let start = Offset::UTC
            .to_timestamp(date.to_datetime(civil::Time::midnight()))
            .ok()?;
        let nanos = start.as_nanosecond();
        return Some((nanos, nanos.saturating_add(DAY - 1)));
    }
    if let Ok(timestamp) = value.parse::<Timestamp>() {
        return Some((timestamp.as_nanosecond(), timestamp.as_nanosecond()));
    }
    let datetime = value.parse::<civil::DateTime>().ok()?;
    let timestamp = Offset::UTC.to_timestamp(datetime).ok()?;
    Some((timestamp.as_nanosecond(), timestamp.as_nanosecond()))
}

/// The first and the last address of an address, or of one with a length behind a slash.
pub fn addresses_of(value: &str) -> Option<(u128, u128)> {
    let (front, length) = match value.rsplit_once('/') {
        Some((front, length)) => (front, Some(length.parse::<u32>().ok()?)),
        None => (value, None),
    };
    let (bits, most) = bits_of(front)?;
    let Some(length) = length else {
        return Some((bits, bits));
    };
    if length > most {
        return None;
    }
    let below = low_bits(most - length);
    Some((bits & !below, bits | below))
}

// The number of an address, and how many of its bits are free.
fn bits_of(value: &str) -> Option<(u128, u32)> {
    if let Ok(short) = value.parse::<net::Ipv4Addr>() {
        return Some((short.to_ipv6_mapped().to_bits(), 32));
    }
    let long = value.parse::<net::Ipv6Addr>().ok()?;
    Some((long.to_bits(), 128))
}

// So many ones.
fn low_bits(count: u32) -> u128 {
    u128::MAX
        .checked_shr(128u32.saturating_sub(count))
        .unwrap_or(0)
}

/// The least and the greatest number of a type.
pub fn limits_of(column_type: ColumnType) -> (i128, i128) {
    match column_type {
        ColumnType::U64 => (0, i128::from(u64::MAX)),
        ColumnType::Bool => (0, 1),
        _ => (i128::from(i64::MIN), i128::from(i64::MAX)),
    }
}

/// The range of numbers that a sign and a value mean, within limits; of != the one that is left
/// out.
pub fn range_of(sign: Sign, value: (i128, i128), limits: (i128, i128)) -> (i128, i128) {
    match sign {
        Sign::Equal | Sign::Other => value,
        Sign::Below => (limits.0, value.0.saturating_sub(1)),
        Sign::AtMost => (limits.0, value.1),
        Sign::Above => (value.1.saturating_add(1), limits.1),
        Sign::AtLeast => (value.0, limits.1),
    }
}

/// What a value of a type looks like.
pub fn shape_of(column_type: ColumnType) -> &'static str {
    match column_type {
        ColumnType::I64 | ColumnType::U64 => "a whole number",
        ColumnType::Bool => "true or false",
        ColumnType::DateTime => "a date or a time: 2026-01-31, 2026-01-31T23:59:59Z",
        ColumnType::IpAddr => "an address: 10.0.0.1, ::1, 10.0.0.0/8",
        ColumnType::Bytes => "hexadecimal digits, two for each byte",
        ColumnType::Str => "a text",
    }
}

/// Numbers of a type as JSON.
pub fn number_text(
    alloc: Global,
    column_type: ColumnType,
    number: i128,
) -> Result<String, AllocError> {
    match column_type {
        ColumnType::Bool => String::from_str(alloc, if number == 0 { "false" } else { "true" }),
        _ => number.to_string(alloc),
    }
}
