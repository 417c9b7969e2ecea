//! Which values all fields that were seen are of.
ghost use Rattle.std.specs.Prelude.{◌≡◌, ◌&&◌, []};
ghost use Rattle.col_model.specs.ColumnType as types;
ghost use Rattle.col_load_csv.specs.Kinds as definitions;
ghost use Rattle.col_load_csv.specs.Kinds.{is_text_of};

use crate::kind::Kind;
use crate::value::text_of;
use col_csv_fields::{flag_spelled, signed_spelled, unsigned_spelled};

/// Whether all fields that were seen, but for empty ones, are numbers of i64, those of u64, numbers
/// as JSON writes them, without points and exponents, flags.
#[derive(Clone, Copy)]
pub(crate) struct Seen {
    signed: bool,
    unsigned: bool,
    numbers: bool,
    whole: bool,
    flags: bool,
}

impl Seen {
    ghost use Rattle.col_load_csv.specs.Seen.{seen_of, merged, with_field, kind_seen};

    /// Before any field.
    pub(crate) fn none() -> Seen
        ensures { result ≡ seen_of [] }
    {
        Seen {
            signed: true,
            unsigned: true,
            numbers: true,
            whole: true,
            flags: true,
        }
    }

    /// With a field more.
    pub(crate) fn with_field(self, field: &[u8]) -> Seen
        ensures { result ≡ with_field self field.now }
    {
        if field.is_empty() {
            return self;
        }
        Seen {
            signed: are_signed(self.signed, field),
            unsigned: are_unsigned(self.unsigned, field),
            numbers: are_numbers(self.numbers, field),
            whole: are_whole(self.whole, field),
            flags: are_flags(self.flags, field),
        }
    }

    /// With those that were seen elsewhere.
    pub(crate) fn merged(self, other: Seen) -> Seen
        ensures { result ≡ merged self other }
    {
        Seen {
            signed: self.signed && other.signed,
            unsigned: self.unsigned && other.unsigned,
            numbers: self.numbers && other.numbers,
            whole: self.whole && other.whole,
            flags: self.flags && other.flags,
        }
    }

    /// The kind of a column with these fields.
    pub(crate) fn kind(self) -> Kind
        ensures { result ≡ kind_seen self }
    {
        if self.signed {
            Kind::Signed
        } else if self.unsigned {
            Kind::Unsigned
        } else if self.numbers && !self.whole {
            Kind::Fractions
        } else if self.flags {
            Kind::Flags
        } else {
            Kind::Texts
        }
    }
}

// Whether all are numbers of i64, if all but this one are.
fn are_signed(others: bool, field: &[u8]) -> bool
    ensures { result ≡ (others && is_text_of types.i64 field.now) }
{
    others && signed_spelled(field).is_some()
}

// Whether all are numbers of u64, if all but this one are.
fn are_unsigned(others: bool, field: &[u8]) -> bool
    ensures { result ≡ (others && is_text_of types.u64 field.now) }
{
    others && unsigned_spelled(field).is_some()
}

// Whether all are numbers as JSON writes them, if all but this one are.
fn are_numbers(others: bool, field: &[u8]) -> bool
    ensures { result ≡ (others && definitions.is_number field.now) }
{
    others && is_number(field)
}

// Whether it is a number as JSON writes it.
fn is_number(field: &[u8]) -> bool
    ensures { result ≡ definitions.is_number field.now }
{
    match text_of(field) {
        Some(text) => json::is_number(text),
        None => false,
    }
}

// Whether all are without points and exponents, if all but this one are.
fn are_whole(others: bool, field: &[u8]) -> bool
    ensures { result ≡ (others && definitions.is_whole field.now) }
{
    others && is_whole(field)
}

// Whether nothing but digits and minuses stands in it.
fn is_whole(field: &[u8]) -> bool
    ensures { result ≡ definitions.is_whole field.now }
{
    field
        .iter()
        .all(|byte| byte.is_ascii_digit() || *byte == b'-')
}

// Whether all are flags, if all but this one are.
fn are_flags(others: bool, field: &[u8]) -> bool
    ensures { result ≡ (others && is_text_of types.bool field.now) }
{
    others && flag_spelled(field).is_some()
}
