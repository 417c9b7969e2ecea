//! Puts bytes as digits in hexadecimal.
ghost use Rattle.std.specs.Prelude.{◌≡◌, ◌<◌, ◌∷◌, [], ◌/◌, ◌%◌};
ghost use Rattle.std.specs.Char.{digit_char};
ghost use Rattle.hex.specs.Hex.{encode_lower};
ghost use Rattle.json.specs.Print.{escape, quoted};
ghost use Rattle.col_print.specs.Puts.{Puts};

use crate::Out;

/// Puts bytes as digits in hexadecimal, in quotes.
pub fn put_hex<O: Out>(out: &mut O, bytes: &[u8])
    ensures { Puts (O.seen out.old) (O.seen out.new) (quoted (encode_lower bytes.now)) }
{
    out.put(b"\"");
    put_digits(out, bytes);
    out.put(b"\"");
}

// Puts bytes as digits in hexadecimal, as they stand in quotes.
fn put_digits<O: Out>(out: &mut O, bytes: &[u8])
    ensures { Puts (O.seen out.old) (O.seen out.new) (escape (encode_lower bytes.now)) }
{
    for byte in bytes {
        put_pair(out, *byte);
    }
}

// Puts the digits of a byte.
#[inline]
fn put_pair<O: Out>(out: &mut O, byte: u8)
    ensures { Puts (O.seen out.old) (O.seen out.new)
        (digit_char (byte / 16) ∷ digit_char (byte % 16) ∷ []) }
{
    out.put(&[hex_digit(byte / 16), hex_digit(byte % 16)]);
}

// The digit of a number.
#[inline]
pub(crate) fn hex_digit(number: u8) -> u8
    requires { number < 16 }
    ensures { result ≡ digit_char number }
{
    if number < 10 {
        b'0' + number
    } else {
        b'a' - 10 + number
    }
}
