//! Bits of a byte, and the byte at the front.
ghost use Rattle.std.specs.Prelude.{◌≡◌, ◌<◌, ◌≤◌, ◌-◌, ◌*◌, ◌/◌, ◌%◌, ◌^◌};
ghost use Rattle.col_common.specs.Walks.{IsNext};

/// The bits of a byte.
pub const BYTE_BITS: u32 = 8;

/// The number of 0 among signed numbers of 64 bits.
pub const SIGN_BIT: u64 = 1 << 63;

/// Bits START to END - 1 of the code, as a number.
#[inline(always)]
pub fn select_bits<const START: u8, const END: u8>(code: u8) -> u8
    requires order { START ≤ END }
    requires byte { END ≤ 8 }
    ensures { result ≡ code / 2 ^ START % 2 ^ (END - START) }
{
    let width = END - START;
    ((u32::from(code) >> START) % (1 << width)) as u8
}

/// The code at the bits START to END - 1, where it fits.
#[inline(always)]
pub fn place_bits<const START: u8, const END: u8>(code: u8) -> u8
    requires order { START ≤ END }
    requires byte { END ≤ 8 }
    requires small { code < 2 ^ (END - START) }
    ensures { result ≡ code * 2 ^ START }
{
    (u32::from(code) << START) as u8
}

/// Takes the first byte, where there is one.
#[inline(always)]
pub fn pop_first_byte(bytes: &mut &[u8]) -> Option<u8>
    ensures { IsNext bytes.old.now result bytes.new.now }
{
    let (first, rest) = bytes.split_first()?;
    *bytes = rest;
    Some(*first)
}
