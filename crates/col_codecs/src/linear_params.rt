//! A line, and the width of the offsets from it.
ghost use Rattle.std.specs.Prelude.{◌≡◌, option_map, IfSome, IsTrue};
ghost use Rattle.col_common.specs.Serializing.{Serializes};
ghost use Rattle.col_bits.specs.Packed.{is_width};
ghost use Rattle.col_model.specs.U64List.{params_at};
ghost use Rattle.col_model.specs.Codecs.{params_bytes};

use crate::line::Line;
use col_common::{ColumnarError, Sink, serialize_bytes};

// The widest offsets that are always read by one load of eight bytes.
const MAX_SMALL_WIDTH: u8 = 56;

// The other width.
const WORD_WIDTH: u8 = 64;

/// A line, and the width of the offsets from it.
#[derive(Clone, Copy)]
pub struct LinearParams {
    pub line: Line,
    pub offset_width: u8,
}

// Whether a byte may name a width.
fn is_width(width: u8) -> bool
    ensures { result ≡ is_width width }
{
    width <= MAX_SMALL_WIDTH || width == WORD_WIDTH
}

impl LinearParams {
    ghost use Rattle.col_codecs.specs.LinearParams.{params_seen};

    /// The line and the width byte at the front, and the bytes behind them.
    #[tactic(auto, unfolding(col_model::specs::U64List::params_at))]
    pub fn read(bytes: &[u8]) -> Option<(LinearParams, &[u8])>
        ensures value { option_map (λ r. (params_seen r.0, r.1.now)) result ≡ params_at bytes.now }
        ensures width { IfSome result (λ r. IsTrue (is_width r.0.offset_width)) }
    {
        let (line, bytes) = Line::read(bytes)?;
        let [offset_width, bytes @ ..] = bytes else {
            return None;
        };
        let offset_width = *offset_width;
        if !is_width(offset_width) {
            return None;
        }
        Some((LinearParams { line, offset_width }, bytes))
    }

    /// Adds the line and the width byte.
    #[tactic(auto, unfolding(col_model::specs::Codecs::params_bytes))]
    pub fn serialize<K: Sink>(&self, sink: &mut K) -> Result<(), ColumnarError>
        ensures { Serializes (K.seen sink.old) (K.seen sink.new) result
            (params_bytes (params_seen self.now)) }
    {
        self.line.serialize(sink)?;
        serialize_bytes(sink, &[self.offset_width])
    }
}
