//! The last eight bytes of a file: its version, and four fixed bytes.
ghost use Rattle.std.specs.Prelude.{◌≡◌, Some, None, IfOk, IfErr, option_map};
ghost use Rattle.col_index.specs.Versions.{version_number};
ghost use Rattle.col_model.specs.Version.{version_of, version_bytes};

use col_common::{InvalidData, u32_at};
use col_index::{CURRENT_VERSION, Version};
use col_model::MAGIC_BYTES;

/// How many bytes the version and the fixed bytes take.
pub const VERSION_FOOTER_NUM_BYTES: usize = 8;

/// The last bytes of a file that is written.
pub fn footer() -> [u8; VERSION_FOOTER_NUM_BYTES]
    ensures { result ≡ version_bytes }
{
    let [a, b, c, d] = CURRENT_VERSION.to_bytes();
    let [e, f, g, h] = MAGIC_BYTES;
    [a, b, c, d, e, f, g, h]
}

/// The version that the last bytes of a file spell.
pub fn parse_footer(footer_bytes: [u8; VERSION_FOOTER_NUM_BYTES]) -> Result<Version, InvalidData>
    ensures ok { IfOk result (λ version.
        version_of footer_bytes ≡ Some (version_number version)) }
    ensures invalid_data { IfErr result (λ _. version_of footer_bytes ≡ None) }
{
    match version_at(&footer_bytes) {
        Some(version) => Ok(version),
        None => Err(InvalidData),
    }
}

// The version that the last bytes of a file, all that are given, spell.
pub(crate) fn version_at(bytes: &[u8]) -> Option<Version>
    ensures { option_map version_number result ≡ version_of bytes.now }
{
    let (version, magic) = u32_at(bytes)?;
    if magic != MAGIC_BYTES.as_slice() {
        return None;
    }
    match Version::try_from_bytes(version.to_le_bytes()) {
        Ok(version) => Some(version),
        Err(_) => None,
    }
}
