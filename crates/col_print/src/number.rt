//! Puts numbers.
ghost use Rattle.std.specs.Prelude.{decimal};
ghost use Rattle.std.specs.Fmt.{signed_decimal};
ghost use Rattle.col_print.specs.Puts.{Puts};

use crate::Out;
use itoa::Buffer;

/// Puts a number in decimal.
#[inline]
pub fn put_number<O: Out>(out: &mut O, number: u64)
    ensures { Puts (O.seen out.old) (O.seen out.new) (decimal number) }
{
    let mut buffer = Buffer::new();
    out.put(buffer.format(number).as_bytes());
}

/// The same of a number with a sign.
#[inline]
pub fn put_signed<O: Out>(out: &mut O, number: i64)
    ensures { Puts (O.seen out.old) (O.seen out.new) (signed_decimal number) }
{
    let mut buffer = Buffer::new();
    out.put(buffer.format(number).as_bytes());
}

/// The same of a long one.
pub fn put_long<O: Out>(out: &mut O, number: i128)
    ensures { Puts (O.seen out.old) (O.seen out.new) (signed_decimal number) }
{
    let mut buffer = Buffer::new();
    out.put(buffer.format(number).as_bytes());
}
