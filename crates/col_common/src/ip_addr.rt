//! Addresses of 16 octets.
ghost use Rattle.std.specs.Prelude.{◌≡◌, List, ℕ};
ghost use Rattle.std.specs.Int.Digits.{number_from_digits};
ghost use Rattle.std.specs.Cmp.Lexicographic.{slice_cmp};
ghost use Rattle.std.specs.Ordering.{nat_cmp};
ghost use Rattle.col_common.specs.Octets.{IsOctets};

use std::marker::Model;

/// An address of 16 octets. Contracts see the number that they spell, the highest octet first.
#[derive(Clone, Copy, Debug, Default, PartialEq, Eq, PartialOrd, Ord, Hash)]
pub struct Ipv6Addr {
    bits: u128,
}

impl Model for Ipv6Addr {
    ghost use Rattle.std.specs.Prelude.{ℕ};

    ghost Value = { ℕ };

    ghost view = { λ s. s.bits };

    ghost inverse = { λ n. record { bits = n } };
}

impl Ipv6Addr {
    /// The address that is this number.
    pub fn from_bits(bits: u128) -> Ipv6Addr
        ensures { result ≡ bits }
    {
        Ipv6Addr { bits }
    }

    /// The number that the address is.
    pub fn to_bits(self) -> u128
        ensures { result ≡ self }
    {
        self.bits
    }

    /// The octets, the highest first.
    pub fn octets(self) -> [u8; 16]
        ensures number { number_from_digits 256 result ≡ self }
        // No other octets spell this address.
        ensures again { (octets : List ℕ) → IsOctets octets → number_from_digits 256 octets ≡ self →
            result ≡ octets }
        // Addresses are ordered as their octets.
        ensures order { (other : List ℕ) → IsOctets other →
            slice_cmp nat_cmp result other ≡ nat_cmp self (number_from_digits 256 other) }
    {
        self.to_bits().to_be_bytes()
    }
}

impl From<[u8; 16]> for Ipv6Addr {
    ghost from_gives = { λ octets address. address ≡ number_from_digits 256 octets };

    fn from(octets: [u8; 16]) -> Ipv6Addr {
        Ipv6Addr {
            bits: u128::from_be_bytes(octets),
        }
    }
}
