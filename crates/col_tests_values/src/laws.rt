//! Laws of values and types, as calls.

use crate::values::doubling::Doubling;
use col_common::{DateTime, Ipv6Addr};
use col_types::{
    accepted_numbers_fit, byte_counts_compare_as_their_numbers, cells_lie_between_as_values_do,
    column_types_compare_as_their_codes, equal_numerical_types_hash_alike,
    stored_addresses_are_cells_of_their_column, stored_numbers_are_cells_of_their_column,
};
use col_values::{
    inverses_lead_back, maps_increase, numbers_of_64_bits_are_read_back,
    numbers_of_64_bits_increase, numbers_of_128_bits_are_images, numbers_of_128_bits_are_read_back,
    numbers_of_128_bits_increase,
};

#[test]
fn the_laws_can_be_called() {
    numbers_of_64_bits_increase::<i64>();
    numbers_of_64_bits_are_read_back::<bool>();
    numbers_of_128_bits_increase::<u128>();
    numbers_of_128_bits_are_read_back::<u128>();
    numbers_of_128_bits_are_images::<u128>();
    maps_increase(&Doubling);
    inverses_lead_back(&Doubling);
    column_types_compare_as_their_codes();
    equal_numerical_types_hash_alike();
    byte_counts_compare_as_their_numbers();
    accepted_numbers_fit();
    cells_lie_between_as_values_do::<DateTime>();
    stored_numbers_are_cells_of_their_column::<bool>();
    stored_addresses_are_cells_of_their_column::<Ipv6Addr>();
}
