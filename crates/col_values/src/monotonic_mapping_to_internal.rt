//! The map from the values of a type to their numbers, and back.
ghost use Rattle.std.specs.Prelude.{◌≡◌, ℕ, ◌&&◌, ◌^◌, refl};
ghost use Rattle.col_values.specs.Codes.{is_below};
ghost use Rattle.col_model.proofs.CodeLaws.{to_internal_laws, inverter_laws, onto_laws};

use crate::{MonotonicallyMappableToU64, MonotonicallyMappableToU128, StrictlyMonotonicFn};
use std::marker::PhantomData;

/// From the values of a type to their numbers.
#[derive(Drop)]
pub struct StrictlyMonotonicMappingToInternal<T> {
    types: PhantomData<T>,
}

impl<T> StrictlyMonotonicMappingToInternal<T> {
    /// The map of this type.
    pub fn new() -> StrictlyMonotonicMappingToInternal<T> {
        StrictlyMonotonicMappingToInternal { types: PhantomData }
    }
}

impl<T: MonotonicallyMappableToU64> StrictlyMonotonicFn<T, u64>
    for StrictlyMonotonicMappingToInternal<T> {
    ghost is_in = { λ _. T.in_type };

    ghost there = { λ _. T.code };

    ghost back = { λ _. T.value };

    ghost laws = { λ _. to_internal_laws T.MonotonicallyMappableToU64.laws };

    #[inline(always)]
    fn in_domain(&self, value: T) -> bool {
        value.known();
        true
    }

    #[inline(always)]
    fn mapping(&self, value: T) -> u64 {
        value.to_u64()
    }

    #[inline(always)]
    fn inverse(&self, value: u64) -> T {
        T::from_u64(value)
    }

    #[inline(always)]
    fn at_least(&self, out: u64) -> Option<T> {
        T::value_from(out)
    }

    #[inline(always)]
    fn at_most(&self, out: u64) -> Option<T> {
        T::value_to(out)
    }
}

impl<T: MonotonicallyMappableToU128> StrictlyMonotonicFn<T, u128>
    for StrictlyMonotonicMappingToInternal<T> {
    ghost is_in = { λ _. T.in_type };

    ghost there = { λ _. T.code };

    ghost back = { λ _. T.value };

    ghost laws = { λ _. to_internal_laws T.MonotonicallyMappableToU128.laws };

    #[inline(always)]
    fn in_domain(&self, value: T) -> bool {
        value.known();
        true
    }

    #[inline(always)]
    fn mapping(&self, value: T) -> u128 {
        value.to_u128()
    }

    #[inline(always)]
    fn inverse(&self, value: u128) -> T {
        T::from_u128(value)
    }

    #[inline(always)]
    fn at_least(&self, out: u128) -> Option<T> {
        Some(T::from_u128(out))
    }

    #[inline(always)]
    fn at_most(&self, out: u128) -> Option<T> {
        Some(T::from_u128(out))
    }
}

/// A map with its directions exchanged.
#[derive(Drop)]
pub struct StrictlyMonotonicMappingInverter<M> {
    original: M,
}

impl<M> From<M> for StrictlyMonotonicMappingInverter<M> {
    fn from(original: M) -> StrictlyMonotonicMappingInverter<M> {
        StrictlyMonotonicMappingInverter { original }
    }
}

impl<T: MonotonicallyMappableToU64> StrictlyMonotonicFn<u64, T>
    for StrictlyMonotonicMappingInverter<StrictlyMonotonicMappingToInternal<T>> {
    ghost is_in = { λ _ n. is_below (2 ^ 64) n && T.is_code n };

    ghost there = { λ _. T.value };

    ghost back = { λ _. T.code };

    ghost laws = { λ _. inverter_laws T.MonotonicallyMappableToU64.laws };

    #[inline(always)]
    fn in_domain(&self, value: u64) -> bool {
        T::is_image(value)
    }

    #[inline(always)]
    fn mapping(&self, value: u64) -> T {
        self.original.inverse(value)
    }

    #[inline(always)]
    fn inverse(&self, value: T) -> u64 {
        self.original.mapping(value)
    }

    #[inline(always)]
    fn at_least(&self, out: T) -> Option<u64> {
        out.known();
        Some(out.to_u64())
    }

    #[inline(always)]
    fn at_most(&self, out: T) -> Option<u64> {
        out.known();
        Some(out.to_u64())
    }
}

impl<T: MonotonicallyMappableToU128> StrictlyMonotonicFn<u128, T>
    for StrictlyMonotonicMappingInverter<StrictlyMonotonicMappingToInternal<T>> {
    ghost is_in = { λ _. is_below (2 ^ 128) };

    ghost there = { λ _. T.value };

    ghost back = { λ _. T.code };

    ghost laws = { λ _. onto_laws T.MonotonicallyMappableToU128.laws (λ _. refl) };

    #[inline(always)]
    fn in_domain(&self, _value: u128) -> bool {
        true
    }

    #[inline(always)]
    #[tactic(auto, using(crate::proofs::CodeLemmas::coded_is_image))]
    fn mapping(&self, value: u128) -> T {
        self.original.inverse(value)
    }

    #[inline(always)]
    fn inverse(&self, value: T) -> u128 {
        self.original.mapping(value)
    }

    #[inline(always)]
    fn at_least(&self, out: T) -> Option<u128> {
        out.known();
        Some(out.to_u128())
    }

    #[inline(always)]
    fn at_most(&self, out: T) -> Option<u128> {
        out.known();
        Some(out.to_u128())
    }
}
