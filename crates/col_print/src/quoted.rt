//! Puts texts in quotes.
ghost use Rattle.std.specs.Prelude.{◌≡◌, ◌≤◌, ◌-◌, ◌∷◌, [], true, length, take, drop};
ghost use Rattle.json.specs.Print.{escape, escape_byte, escape_letter, quoted};
ghost use Rattle.col_print.specs.Puts.{Puts};

use crate::Out;
use crate::digits::hex_digit;

/// Puts a text in quotes, as JSON escapes it.
pub fn put_quoted<O: Out>(out: &mut O, text: &str)
    ensures { Puts (O.seen out.old) (O.seen out.new) (quoted text.now) }
{
    out.put(b"\"");
    put_escaped(out, text.as_bytes());
    out.put(b"\"");
}

// Puts a text as it stands in quotes: what needs no escape in one piece, then the next escape.
fn put_escaped<O: Out>(out: &mut O, text: &[u8])
    ensures { Puts (O.seen out.old) (O.seen out.new) (escape text.now) }
{
    let mut start = 0;
    while start < text.len() {
        let end = plain_end(text, start);
        out.put(&text[start..end]);
        if end == text.len() {
            return;
        }
        put_escape(out, text[end]);
        start = end + 1;
    }
}

// Where the bytes from a place on that need no escape end.
fn plain_end(text: &[u8], start: usize) -> usize
    requires { start ≤ length text.now }
    ensures within { (start ≤ result) × (result ≤ length text.now) }
    ensures plain { escape (take (result - start) (drop start text.now))
        ≡ take (result - start) (drop start text.now) }
{
    let mut end = start;
    while end < text.len() && is_plain(text[end]) {
        end += 1;
    }
    end
}

// Whether a byte stands in quotes as it is.
#[inline]
#[tactic(auto, unfolding(json::specs::Print::escape_byte))]
fn is_plain(byte: u8) -> bool
    ensures { result ≡ true → escape_byte byte ≡ byte ∷ [] }
{
    byte >= 32 && byte != b'"' && byte != b'\\'
}

// Puts a byte that stands escaped in quotes.
#[tactic(auto, unfolding(json::specs::Print::escape_byte))]
fn put_escape<O: Out>(out: &mut O, byte: u8)
    ensures { Puts (O.seen out.old) (O.seen out.new) (escape_byte byte) }
{
    match byte {
        b'"' => out.put(b"\\\""),
        b'\\' => out.put(b"\\\\"),
        8 => out.put(b"\\b"),
        9 => out.put(b"\\t"),
        10 => out.put(b"\\n"),
        12 => out.put(b"\\f"),
        13 => out.put(b"\\r"),
        _ => put_other(out, byte),
    }
}

// Puts a byte without a short escape: by its number where that is below 32, else as it is.
#[tactic(auto, unfolding(json::specs::Print::escape_byte))]
fn put_other<O: Out>(out: &mut O, byte: u8)
    requires { escape_letter byte ≡ 0 }
    ensures { Puts (O.seen out.old) (O.seen out.new) (escape_byte byte) }
{
    if byte < 32 {
        let (high, low) = (hex_digit(byte / 16), hex_digit(byte % 16));
        out.put(&[b'\\', b'u', b'0', b'0', high, low]);
    } else {
        out.put(&[byte]);
    }
}
