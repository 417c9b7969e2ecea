//! That numbers are as wide as their types.
ghost use Rattle.std.specs.Prelude.{◌<◌, ◌^◌};
ghost use Rattle.col_common.specs.Ascending.{AreBelow};

use col_common::Ipv6Addr;

// That each code fits 64 bits.
pub(crate) fn codes_fit(codes: &[u64])
    ensures { AreBelow (2 ^ 64) codes.now }
{
    // That each item of such a list has the range of its type.
    let _ = codes;
}

// That each address fits 128 bits. They are walked, since a list of them doesn't tell it.
pub(crate) fn addresses_fit(addresses: &[Ipv6Addr])
    ensures { AreBelow (2 ^ 128) addresses.now }
{
    for address in addresses {
        address_fits(*address);
    }
}

// That an address fits 128 bits.
fn address_fits(address: Ipv6Addr)
    ensures { address < 2 ^ 128 }
{
    // That its bits have the range of their type.
    let _bits = address.to_bits();
}
