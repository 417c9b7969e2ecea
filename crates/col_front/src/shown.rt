//! Values as people read them.

use col_column::Column;
use col_common::{ColumnarError, DateTime, DocId, Ipv6Addr};
use col_dynamic::DynamicColumn;
use col_text::BytesColumn;
use col_types::ColumnType;
use col_values::ColumnValues;
use jiff::Timestamp;
use std::alloc::{AllocError, Global};
use std::net;

/// A value of a column.
#[derive(Drop)]
pub enum Shown {
    Number(i128),
    Flag(bool),
    /// Nanoseconds since 1970.
    Time(i64),
    Address(u128),
    Text(String),
    Bytes(Vec<u8>),
}

/// The values of a document, in order.
pub fn values_of_doc(
    alloc: Global,
    column: &DynamicColumn,
    doc: DocId,
) -> Result<Vec<Shown>, ColumnarError> {
    match column {
        DynamicColumn::Bool(flags) => shown_with(alloc, flags, doc, Shown::Flag),
        DynamicColumn::I64(numbers) => {
            shown_with(
                alloc,
                numbers,
                doc,
                |number| Shown::Number(i128::from(number)),
            )
        }
        DynamicColumn::U64(numbers) => {
            shown_with(
                alloc,
                numbers,
                doc,
                |number| Shown::Number(i128::from(number)),
            )
        }
        DynamicColumn::DateTime(times) => shown_with(alloc, times, doc, time_shown),
        DynamicColumn::IpAddr(addresses) => shown_with(alloc, addresses, doc, address_shown),
        DynamicColumn::Bytes(terms) => terms_of_doc(alloc, terms, doc, ColumnType::Bytes),
        DynamicColumn::Str(texts) => {
            terms_of_doc(alloc, texts.bytes_column(), doc, ColumnType::Str)
        }
    }
}

fn time_shown(time: DateTime) -> Shown {
    Shown::Time(time.into_timestamp_nanos())
}

fn address_shown(address: Ipv6Addr) -> Shown {
    Shown::Address(address.to_bits())
}

fn shown_with<T, V, S>(
    alloc: Global,
    column: &Column<T, V>,
    doc: DocId,
    show: S,
) -> Result<Vec<Shown>, ColumnarError>
where
    T: PartialOrd + Copy,
    V: ColumnValues<T>,
    S: Fn(T) -> Shown,
    requires { S.IsAlwaysCallable show }
{
    let mut found = Vec::new(alloc);
    if doc < column.num_docs() {
        for value in column.values_for_doc(doc) {
            found.push(show(value))?;
        }
    }
    Ok(found)
}

fn terms_of_doc(
    alloc: Global,
    terms: &BytesColumn,
    doc: DocId,
    column_type: ColumnType,
) -> Result<Vec<Shown>, ColumnarError> {
    let mut found = Vec::new(alloc);
    if doc < terms.num_rows() {
        for ord in terms.term_ords(doc) {
            let mut term = Vec::new(alloc);
            terms.ord_to_bytes(ord, &mut term)?;
            found.push(term_shown(alloc, column_type, term)?)?;
        }
    }
    Ok(found)
}

/// A term as a text, or as bytes where it is none.
pub fn term_shown(
    alloc: Global,
    column_type: ColumnType,
    term: Vec<u8>,
) -> Result<Shown, AllocError> {
    if column_type.to_code() == ColumnType::Bytes.to_code() {
        return Ok(Shown::Bytes(term));
    }
    match str::from_utf8(&term) {
        Ok(text) => Ok(Shown::Text(String::from_str(alloc, text)?)),
        Err(_) => Ok(Shown::Bytes(term)),
    }
}

impl Shown {
    /// The value as a text: times as RFC 3339 has them, addresses with dots or colons, bytes in
    /// hexadecimal digits.
    pub fn text(&self, alloc: Global) -> Result<String, AllocError> {
        match self {
            Shown::Number(number) => number.to_string(alloc),
            Shown::Flag(flag) => flag.to_string(alloc),
            Shown::Time(nanos) => time_text(alloc, *nanos),
            Shown::Address(bits) => address_text(alloc, *bits),
            Shown::Text(text) => text.clone(),
            Shown::Bytes(bytes) => hex::encode(alloc, bytes),
        }
    }

    /// Whether it stands without quotes in JSON.
    pub fn is_bare(&self) -> bool {
        matches!(self, Shown::Number(_) | Shown::Flag(_))
    }
}

fn time_text(alloc: Global, nanos: i64) -> Result<String, AllocError> {
    match Timestamp::from_nanosecond(i128::from(nanos)) {
        Ok(timestamp) => timestamp.to_string(alloc),
        Err(_) => nanos.to_string(alloc),
    }
}

fn address_text(alloc: Global, bits: u128) -> Result<String, AllocError> {
    let address = net::Ipv6Addr::from_bits(bits);
    match address.to_ipv4_mapped() {
        Some(short) => short.to_string(alloc),
        None => address.to_string(alloc),
    }
}
