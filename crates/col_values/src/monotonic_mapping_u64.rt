//! Types whose values stand as numbers of 64 bits, in their order.
ghost use Rattle.std.specs.Prelude.{◌≡◌, ℕ, ◌^◌, Bool, true};
ghost use Rattle.col_model.specs.Column.{signed_of};
ghost use Rattle.col_model.specs.Images.{is_image_of_bool, is_image_of_u32};
ghost use Rattle.col_values.specs.Monotonic.{Passes, IsAtLeast, IsAtMostOf};
ghost use Rattle.col_values.specs.Laws.{ImagesReachDown};
ghost use Rattle.col_values.specs.Codes.{IsCoded, number_cmp, is_below, bool_code, bool_value, i64_code, is_i64};
ghost use Rattle.col_model.proofs.CodeLaws.{number_laws, u32_laws, bool_laws, i64_laws};

use col_common::{DateTime, SIGN_BIT};

/// A type whose values stand as numbers of 64 bits, in their order.
pub trait MonotonicallyMappableToU64: PartialOrd + Copy {
    /// Holds of the values of the type.
    ghost in_type: { Self → Bool };

    /// The number of a value.
    ghost code: { Self → ℕ };

    /// The value of a number.
    ghost value: { ℕ → Self };

    /// Holds of the numbers that stand for a value.
    ghost is_code: { ℕ → Bool };

    /// A value in hand is one of its type.
    fn known(&self)
        ensures { Passes in_type self.now };

    /// The number of this value.
    fn to_u64(self) -> u64
        ensures { result ≡ code self };

    /// The value of a number.
    fn from_u64(val: u64) -> Self
        requires { Passes is_code val }
        ensures { result ≡ value val };

    /// Whether a number stands for a value.
    fn is_image(val: u64) -> bool
        ensures { result ≡ is_code val };

    /// Whether it is said that each number up to an image is one, so that the greatest of numbers
    /// tells of all.
    fn images_reach_down() -> bool
        ensures { result ≡ true → ImagesReachDown is_code };

    /// The least value whose number is at least this one; none where there is none.
    fn value_from(val: u64) -> Option<Self>
        ensures { IsAtLeast Self.partial_cmp number_cmp in_type code val result };

    /// The greatest value whose number is at most this one; none where there is none.
    fn value_to(val: u64) -> Option<Self>
        ensures { IsAtMostOf Self.partial_cmp number_cmp in_type code val result };

    /// The numbers stand for the values in their order.
    ghost laws: { IsCoded (2 ^ 64) Self.partial_cmp in_type code value is_code };
}

impl MonotonicallyMappableToU64 for u64 {
    ghost in_type = { is_below (2 ^ 64) };

    ghost code = { λ n. n };

    ghost value = { λ n. n };

    ghost is_code = { λ _. true };

    ghost laws = { number_laws (2 ^ 64) };

    #[inline(always)]
    fn known(&self) {
        // That it is below 2 ^ 64 is known of a number that is read.
        let _value = *self;
    }

    #[inline(always)]
    fn to_u64(self) -> u64 {
        self
    }

    #[inline(always)]
    fn from_u64(val: u64) -> u64 {
        val
    }

    #[inline(always)]
    fn is_image(_val: u64) -> bool {
        true
    }

    #[inline(always)]
    fn images_reach_down() -> bool {
        true
    }

    #[inline(always)]
    fn value_from(val: u64) -> Option<u64> {
        Some(val)
    }

    #[inline(always)]
    fn value_to(val: u64) -> Option<u64> {
        Some(val)
    }
}

impl MonotonicallyMappableToU64 for u32 {
    ghost in_type = { is_below (2 ^ 32) };

    ghost code = { λ n. n };

    ghost value = { λ n. n };

    ghost is_code = { is_image_of_u32 };

    ghost laws = { u32_laws };

    #[inline(always)]
    fn known(&self) {
        // That it is below 2 ^ 32 is known of a number that is read.
        let _value = *self;
    }

    #[inline(always)]
    fn to_u64(self) -> u64 {
        u64::from(self)
    }

    #[inline(always)]
    fn from_u64(val: u64) -> u32 {
        val as u32
    }

    #[inline(always)]
    fn is_image(val: u64) -> bool {
        val <= u64::from(u32::MAX)
    }

    #[inline(always)]
    fn images_reach_down() -> bool {
        true
    }

    #[inline(always)]
    fn value_from(val: u64) -> Option<u32> {
        if val > u64::from(u32::MAX) {
            return None;
        }
        Some(val as u32)
    }

    #[inline(always)]
    fn value_to(val: u64) -> Option<u32> {
        Some(val.min(u64::from(u32::MAX)) as u32)
    }
}

impl MonotonicallyMappableToU64 for bool {
    ghost in_type = { λ _. true };

    ghost code = { bool_code };

    ghost value = { bool_value };

    ghost is_code = { is_image_of_bool };

    ghost laws = { bool_laws };

    #[inline(always)]
    fn known(&self) {}

    #[inline(always)]
    fn to_u64(self) -> u64 {
        u64::from(self)
    }

    #[inline(always)]
    fn from_u64(val: u64) -> bool {
        val == u64::from(true)
    }

    #[inline(always)]
    fn is_image(val: u64) -> bool {
        val <= u64::from(true)
    }

    #[inline(always)]
    fn images_reach_down() -> bool {
        true
    }

    #[inline(always)]
    fn value_from(val: u64) -> Option<bool> {
        if val > u64::from(true) {
            return None;
        }
        Some(val == u64::from(true))
    }

    #[inline(always)]
    fn value_to(val: u64) -> Option<bool> {
        Some(val >= u64::from(true))
    }
}

impl MonotonicallyMappableToU64 for i64 {
    ghost in_type = { is_i64 };

    ghost code = { i64_code };

    ghost value = { signed_of };

    ghost is_code = { λ _. true };

    ghost laws = { i64_laws };

    #[inline(always)]
    fn known(&self) {
        // That it has 64 bits, one of them its sign, is known of a number that is read.
        let _value = *self;
    }

    #[inline(always)]
    fn to_u64(self) -> u64 {
        self.cast_unsigned().wrapping_add(SIGN_BIT)
    }

    #[inline(always)]
    fn from_u64(val: u64) -> i64 {
        val.wrapping_add(SIGN_BIT).cast_signed()
    }

    #[inline(always)]
    fn is_image(_val: u64) -> bool {
        true
    }

    #[inline(always)]
    fn images_reach_down() -> bool {
        true
    }

    #[inline(always)]
    fn value_from(val: u64) -> Option<i64> {
        Some(i64::from_u64(val))
    }

    #[inline(always)]
    fn value_to(val: u64) -> Option<i64> {
        Some(i64::from_u64(val))
    }
}

impl MonotonicallyMappableToU64 for DateTime {
    ghost in_type = { is_i64 };

    ghost code = { i64_code };

    ghost value = { signed_of };

    ghost is_code = { λ _. true };

    ghost laws = { i64_laws };

    #[inline(always)]
    fn known(&self) {
        // That the nanoseconds have 64 bits is known of a moment.
        let _nanoseconds = self.into_timestamp_nanos();
    }

    #[inline(always)]
    fn to_u64(self) -> u64 {
        self.into_timestamp_nanos().to_u64()
    }

    #[inline(always)]
    fn from_u64(val: u64) -> DateTime {
        DateTime::from_timestamp_nanos(i64::from_u64(val))
    }

    #[inline(always)]
    fn is_image(val: u64) -> bool {
        i64::is_image(val)
    }

    #[inline(always)]
    fn images_reach_down() -> bool {
        i64::images_reach_down()
    }

    #[inline(always)]
    fn value_from(val: u64) -> Option<DateTime> {
        Some(DateTime::from_u64(val))
    }

    #[inline(always)]
    fn value_to(val: u64) -> Option<DateTime> {
        Some(DateTime::from_u64(val))
    }
}
