//! The text of cities and addresses.
ghost use Rattle.std.specs.Prelude.{◌≡◌, ◌++◌, codes, decimal, string_bytes, IfOk};
ghost use Rattle.std.specs.Int.{w128, to_be_bytes};
ghost use Rattle.hex.specs.Hex.{encode_lower};

use itoa::Buffer;
use std::alloc::{AllocError, Global};

pub(crate) fn city_name(alloc: Global, number: u64) -> Result<String, AllocError>
    ensures { IfOk result (λ s. string_bytes s ≡ codes "c" ++ decimal number) }
{
    let mut buffer = Buffer::new();
    let mut city = String::from_str(alloc, "c")?;
    city.push_str(buffer.format(number))?;
    Ok(city)
}

pub(crate) fn address_digits(alloc: Global, number: u64) -> Result<String, AllocError>
    ensures { IfOk result (λ s. string_bytes s ≡ encode_lower (to_be_bytes w128 number)) }
{
    hex::encode(alloc, &(number as u128).to_be_bytes())
}
