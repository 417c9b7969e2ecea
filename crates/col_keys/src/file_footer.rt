//! The footer of a file.
ghost use Rattle.std.specs.Prelude.{◌≡◌, option_map};
ghost use Rattle.col_common.specs.Serializing.{Serializes};
ghost use Rattle.col_model.specs.Keys.{file_footer};
ghost use Rattle.col_model.specs.Spelling.{footer_bytes};
ghost use Rattle.col_keys.specs.Footers.{footer_of};

use crate::format_version::{footer, version_at};
use col_common::{ColumnarError, Sink, serialize_bytes, u32_at, u64_at};
use col_index::Version;

/// How many bytes a footer takes.
pub const FOOTER_NUM_BYTES: u64 = 20;

/// What the last bytes of a file say.
#[derive(Clone, Copy, Debug)]
pub struct Footer {
    pub key_table_len: u64,
    pub num_docs: u32,
    pub version: Version,
}

/// The footer that all the bytes spell.
#[tactic(auto, unfolding(col_model::specs::Keys::file_footer))]
pub fn read_footer(bytes: &[u8]) -> Option<Footer>
    ensures { option_map footer_of result ≡ file_footer bytes.now }
{
    let (key_table_len, rest) = u64_at(bytes)?;
    let (num_docs, rest) = u32_at(rest)?;
    let version = version_at(rest)?;
    Some(Footer {
        key_table_len,
        num_docs,
        version,
    })
}

/// Writes the footer of a file of the current version.
pub fn serialize_footer<K: Sink>(
    key_table_len: u64,
    num_docs: u32,
    sink: &mut K,
) -> Result<(), ColumnarError>
    ensures { Serializes (K.seen sink.old) (K.seen sink.new)
        result (footer_bytes key_table_len num_docs) }
{
    serialize_bytes(sink, &key_table_len.to_le_bytes())?;
    serialize_bytes(sink, &num_docs.to_le_bytes())?;
    serialize_bytes(sink, &footer())
}
