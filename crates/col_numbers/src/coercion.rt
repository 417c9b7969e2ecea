//! Maps between the numerical types, and between the halves of the numbers of 64 bits.
ghost use Rattle.std.specs.Prelude.{◌≡◌, pos, nat_abs};
ghost use Rattle.col_numbers.specs.Coercions.{fits_i64, fits_u64, is_in_half, moved, moved_back};
ghost use Rattle.col_model.proofs.CoercionLaws.{i64_to_u64_laws, u64_to_i64_laws, moved_laws};

use col_common::SIGN_BIT;
use col_values::StrictlyMonotonicFn;

/// From signed numbers that are at least 0 to the same numbers without a sign.
#[derive(Clone, Copy, Debug)]
pub struct MapI64ToU64;

impl StrictlyMonotonicFn<i64, u64> for MapI64ToU64 {
    ghost is_in = { λ _. fits_u64 };

    ghost there = { λ _. nat_abs };

    ghost back = { λ _. pos };

    ghost laws = { λ _. i64_to_u64_laws };

    #[inline(always)]
    fn in_domain(&self, value: i64) -> bool {
        value >= 0
    }

    #[inline(always)]
    fn mapping(&self, value: i64) -> u64 {
        value.cast_unsigned()
    }

    #[inline(always)]
    fn inverse(&self, value: u64) -> i64 {
        value.cast_signed()
    }

    #[inline(always)]
    fn at_least(&self, out: u64) -> Option<i64> {
        if out >= SIGN_BIT {
            return None;
        }
        Some(out.cast_signed())
    }

    #[inline(always)]
    fn at_most(&self, out: u64) -> Option<i64> {
        Some(out.min(SIGN_BIT - 1).cast_signed())
    }
}

/// From numbers that are at most the greatest signed one to the same numbers with a sign.
#[derive(Clone, Copy, Debug)]
pub struct MapU64ToI64;

impl StrictlyMonotonicFn<u64, i64> for MapU64ToI64 {
    ghost is_in = { λ _. fits_i64 };

    ghost there = { λ _. pos };

    ghost back = { λ _. nat_abs };

    ghost laws = { λ _. u64_to_i64_laws };

    #[inline(always)]
    fn in_domain(&self, value: u64) -> bool {
        value < SIGN_BIT
    }

    #[inline(always)]
    fn mapping(&self, value: u64) -> i64 {
        value.cast_signed()
    }

    #[inline(always)]
    fn inverse(&self, value: i64) -> u64 {
        value.cast_unsigned()
    }

    #[inline(always)]
    fn at_least(&self, out: i64) -> Option<u64> {
        Some(out.max(0).cast_unsigned())
    }

    #[inline(always)]
    fn at_most(&self, out: i64) -> Option<u64> {
        if out < 0 {
            return None;
        }
        Some(out.cast_unsigned())
    }
}

/// From the numbers of one half to those of the other, in their order.
#[derive(Clone, Copy, Debug)]
pub struct MapToOtherHalf {
    /// From the lower half to the upper one.
    pub rises: bool,
}

impl StrictlyMonotonicFn<u64, u64> for MapToOtherHalf {
    ghost is_in = { λ m. is_in_half m.rises };

    ghost there = { λ m. moved m.rises };

    ghost back = { λ m. moved_back m.rises };

    ghost laws = { λ m. moved_laws m.rises };

    #[inline(always)]
    fn in_domain(&self, value: u64) -> bool {
        (value < SIGN_BIT) == self.rises
    }

    #[inline(always)]
    fn mapping(&self, value: u64) -> u64 {
        value.wrapping_add(SIGN_BIT)
    }

    #[inline(always)]
    fn inverse(&self, value: u64) -> u64 {
        value.wrapping_add(SIGN_BIT)
    }

    #[inline(always)]
    fn at_least(&self, out: u64) -> Option<u64> {
        if self.rises {
            return Some(out.saturating_sub(SIGN_BIT));
        }
        out.checked_add(SIGN_BIT)
    }

    #[inline(always)]
    fn at_most(&self, out: u64) -> Option<u64> {
        if self.rises {
            return out.checked_sub(SIGN_BIT);
        }
        Some(out.saturating_add(SIGN_BIT))
    }
}
