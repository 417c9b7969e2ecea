//! Values that stand for whole numbers.
ghost use Rattle.std.specs.Prelude.{◌≡◌, ℤ, pos, ◌+ℤ◌};
ghost use Rattle.col_facet.specs.Tables.{HasPlaces};
ghost use Rattle.col_facet.specs.declared.facet_cell.FacetCell.TheVariants as cells;
ghost use Rattle.col_values.specs.Codes.{bool_code};

use col_common::DateTime;
use col_values::MonotonicallyMappableToU64;

/// A value that stands for a whole number. Values stand as far from one another as their numbers.
pub(crate) trait LookNumber: MonotonicallyMappableToU64 + Default {
    /// The number.
    ghost number: { Self → ℤ };

    /// The number so far above that of a value.
    fn number_above(self, distance: u64) -> i128
        ensures { result ≡ number self +ℤ pos distance };

    /// That numbers are as far from one another as their codes, and in one order with the values.
    fn numbers_have_places()
        ensures { HasPlaces Self.partial_cmp Self.in_type Self.code (λ x. cells.Num (number x))
            (λ least n. cells.Num (number least +ℤ pos n)) };
}

impl LookNumber for bool {
    ghost number = { λ b. pos (bool_code b) };

    fn number_above(self, distance: u64) -> i128 {
        i128::from(u64::from(self)) + i128::from(distance)
    }

    #[tactic(auto, using(crate::proofs::NumberLemmas::flags))]
    fn numbers_have_places() {}
}

impl LookNumber for i64 {
    ghost number = { λ z. z };

    fn number_above(self, distance: u64) -> i128 {
        i128::from(self) + i128::from(distance)
    }

    #[tactic(auto, using(crate::proofs::NumberLemmas::signed))]
    fn numbers_have_places() {}
}

impl LookNumber for u64 {
    ghost number = { λ n. pos n };

    fn number_above(self, distance: u64) -> i128 {
        i128::from(self) + i128::from(distance)
    }

    #[tactic(auto, using(crate::proofs::NumberLemmas::unsigned))]
    fn numbers_have_places() {}
}

impl LookNumber for DateTime {
    ghost number = { λ z. z };

    fn number_above(self, distance: u64) -> i128 {
        self.into_timestamp_nanos().number_above(distance)
    }

    #[tactic(auto, using(crate::proofs::NumberLemmas::signed))]
    fn numbers_have_places() {}
}
