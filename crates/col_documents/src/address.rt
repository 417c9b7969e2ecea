//! Addresses as texts.
ghost use Rattle.std.specs.Prelude.{◌≡◌, Ok};
ghost use Rattle.std.specs.Net.Addr.{ipv6_segments};
ghost use Rattle.col_documents.specs.Addresses.{address_of, address_of_text};
ghost use Rattle.col_documents.specs.Values.{GivesReason};
ghost use Rattle.col_questions.specs.Values.{typed_cell};

use crate::refusal::Reason;
use col_common::Ipv6Addr;
use col_questions::TypedValue;
use std::net::IpAddr;

/// The address that a text writes: groups of hexadecimal digits with colons, or four numbers with
/// dots, which are those of ::ffff:a.b.c.d.
pub fn address_spelled(text: &str) -> Result<TypedValue, Reason>
    ensures { GivesReason typed_cell result (address_of_text text.now) }
{
    match IpAddr::parse_ascii(text.as_bytes()) {
        Ok(IpAddr::V4(address)) => Ok(value_of(address.to_ipv6_mapped())),
        Ok(IpAddr::V6(address)) => Ok(value_of(address)),
        Err(_) => Err(Reason::Form),
    }
}

// An address as a value.
fn value_of(address: std::net::Ipv6Addr) -> TypedValue
    ensures { address_of (ipv6_segments address) ≡ Ok (typed_cell result) }
{
    TypedValue::IpAddr(Ipv6Addr::from(address.octets()))
}
