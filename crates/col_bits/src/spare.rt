//! The spare bits of packed numbers.
ghost use Rattle.std.specs.Prelude.{◌≡◌};
ghost use Rattle.col_bits.specs.Packed.{is_packed};

use col_common::BYTE_BITS;

/// Whether there are just the bytes that so many bits take, and the spare bits are 0.
pub fn is_packed(bytes: &[u8], num_bits: usize) -> bool
    ensures { result ≡ is_packed bytes.now num_bits }
{
    if bytes.len() != num_bits.div_ceil(BYTE_BITS as usize) {
        return false;
    }
    let used = num_bits % BYTE_BITS as usize;
    used == 0 || bytes[bytes.len() - 1] >> used == 0
}
