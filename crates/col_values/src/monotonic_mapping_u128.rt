//! Types whose values stand as numbers of 128 bits, in their order.
ghost use Rattle.std.specs.Prelude.{◌≡◌, ℕ, ◌^◌, Bool, true};
ghost use Rattle.col_values.specs.Monotonic.{Passes};
ghost use Rattle.col_values.specs.Codes.{IsCoded, is_below};
ghost use Rattle.col_model.proofs.CodeLaws.{number_laws};

use col_common::Ipv6Addr;

/// A type whose values stand as numbers of 128 bits, in their order. Each such number stands for a
/// value.
pub trait MonotonicallyMappableToU128: PartialOrd + Copy {
    /// Holds of the values of the type.
    ghost in_type: { Self → Bool };

    /// The number of a value.
    ghost code: { Self → ℕ };

    /// The value of a number.
    ghost value: { ℕ → Self };

    /// A value in hand is one of its type.
    fn known(&self)
        ensures { Passes in_type self.now };

    /// The number of this value.
    fn to_u128(self) -> u128
        ensures { result ≡ code self };

    /// The value of a number.
    fn from_u128(val: u128) -> Self
        ensures { result ≡ value val };

    /// The numbers stand for the values in their order.
    ghost laws: { IsCoded (2 ^ 128) Self.partial_cmp in_type code value (λ _. true) };
}

impl MonotonicallyMappableToU128 for u128 {
    ghost in_type = { is_below (2 ^ 128) };

    ghost code = { λ n. n };

    ghost value = { λ n. n };

    ghost laws = { number_laws (2 ^ 128) };

    #[inline(always)]
    fn known(&self) {
        // That it is below 2 ^ 128 is known of a number that is read.
        let _value = *self;
    }

    #[inline(always)]
    fn to_u128(self) -> u128 {
        self
    }

    #[inline(always)]
    fn from_u128(val: u128) -> u128 {
        val
    }
}

impl MonotonicallyMappableToU128 for Ipv6Addr {
    ghost in_type = { is_below (2 ^ 128) };

    ghost code = { λ n. n };

    ghost value = { λ n. n };

    ghost laws = { number_laws (2 ^ 128) };

    #[inline(always)]
    fn known(&self) {
        // That its number has 128 bits is known of an address.
        let _bits = self.to_bits();
    }

    #[inline(always)]
    fn to_u128(self) -> u128 {
        self.to_bits()
    }

    #[inline(always)]
    fn from_u128(val: u128) -> Ipv6Addr {
        Ipv6Addr::from_bits(val)
    }
}
