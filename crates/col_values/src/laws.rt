//! Laws of lists, of the numbers of values and of maps, each the contract of a public call.
ghost use Rattle.std.specs.Prelude.{◌≡◌, ◌^◌, length};
ghost use Rattle.col_values.specs.Laws.{NumbersIncrease, ImagesAreTold, EachIsImage, Increases, LeadsBack};

use crate::{
    ColumnValues, MonotonicallyMappableToU64, MonotonicallyMappableToU128, StrictlyMonotonicFn,
};
use col_common::Iterable;

/// How many items an iterator gives before it ends: as many as the list has.
pub fn count_items<T: PartialOrd + Copy, V: ColumnValues<T>>(values: &V) -> u64
    ensures { result ≡ length (V.values values.now) }
{
    // That there are fewer than 2 ^ 32 values is known of the count.
    let _len = values.num_vals();
    let items = values.iter();
    let mut at = items.walk();
    let mut count = 0;
    while let Some(_item) = items.next(&mut at) {
        count += 1;
    }
    count
}

/// `to_u64` strictly increases.
pub fn numbers_of_64_bits_increase<T: MonotonicallyMappableToU64>()
    ensures { NumbersIncrease T.partial_cmp T.in_type T.code }
{}

/// `from_u64` reads the number of a value back.
pub fn numbers_of_64_bits_are_read_back<T: MonotonicallyMappableToU64>()
    ensures { LeadsBack T.in_type T.code T.value }
{}

/// A number is the number of a value exactly where `is_image` says so.
pub fn images_are_told<T: MonotonicallyMappableToU64>()
    ensures { ImagesAreTold (2 ^ 64) T.in_type T.code T.is_code }
{}

/// `to_u128` strictly increases.
pub fn numbers_of_128_bits_increase<T: MonotonicallyMappableToU128>()
    ensures { NumbersIncrease T.partial_cmp T.in_type T.code }
{}

/// `from_u128` reads the number of a value back.
pub fn numbers_of_128_bits_are_read_back<T: MonotonicallyMappableToU128>()
    ensures { LeadsBack T.in_type T.code T.value }
{}

/// Each number of 128 bits is the number of a value.
#[tactic(auto, using(crate::proofs::CodeLemmas::coded_is_image))]
pub fn numbers_of_128_bits_are_images<T: MonotonicallyMappableToU128>()
    ensures { EachIsImage (2 ^ 128) T.in_type T.code }
{}

/// A map strictly increases on its domain.
pub fn maps_increase<External, Internal, M>(map: &M)
where
    External: PartialOrd + Copy,
    Internal: PartialOrd + Copy,
    M: StrictlyMonotonicFn<External, Internal>,
    ensures { Increases External.partial_cmp Internal.partial_cmp (M.is_in map.now)
        (M.there map.now) }
{}

/// `inverse` leads back from what a value of the domain is mapped to.
pub fn inverses_lead_back<External, Internal, M>(map: &M)
where
    External: PartialOrd + Copy,
    Internal: PartialOrd + Copy,
    M: StrictlyMonotonicFn<External, Internal>,
    ensures { LeadsBack (M.is_in map.now) (M.there map.now) (M.back map.now) }
{}
