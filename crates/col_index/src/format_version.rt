//! Versions of files.
ghost use Rattle.std.specs.Prelude.{◌≡◌, false, Some, IfOk, IfErr};
ghost use Rattle.std.specs.Int.{w32, to_le_bytes, from_le_bytes};
ghost use Rattle.col_model.specs.Version.{is_version};

use col_common::InvalidData;
use std::fmt;

// The number of version 1.
const FIRST_NUMBER: u32 = 1;

// The number of version 2.
const SECOND_NUMBER: u32 = 2;

// The number of version 3.
const THIRD_NUMBER: u32 = 3;

/// The version of a file.
#[derive(Clone, Copy, Debug, PartialEq, Eq)]
pub enum Version {
    V1,
    V2,
    V3,
}

/// The version that is written.
pub const CURRENT_VERSION: Version = Version::V3;

impl Version {
    ghost use Rattle.col_index.specs.Versions.{version_number};

    /// The four bytes in a file, the lowest first.
    pub fn to_bytes(&self) -> [u8; 4]
        ensures { result ≡ to_le_bytes w32 (version_number self.now) }
    {
        match self {
            Version::V1 => FIRST_NUMBER.to_le_bytes(),
            Version::V2 => SECOND_NUMBER.to_le_bytes(),
            Version::V3 => THIRD_NUMBER.to_le_bytes(),
        }
    }

    /// The version of four bytes.
    pub fn try_from_bytes(bytes: [u8; 4]) -> Result<Version, InvalidData>
        ensures ok { IfOk result (λ version. version_number version ≡ from_le_bytes w32 bytes) }
        ensures invalid_data { IfErr result (λ _. is_version (from_le_bytes w32 bytes) ≡ false) }
    {
        match u32::from_le_bytes(bytes) {
            FIRST_NUMBER => Ok(Version::V1),
            SECOND_NUMBER => Ok(Version::V2),
            THIRD_NUMBER => Ok(Version::V3),
            _ => Err(InvalidData),
        }
    }
}

impl fmt::Display for Version {
    ghost use Rattle.col_index.specs.Versions.{version_name};

    ghost output = { λ v. Some (version_name v) };

    fn fmt<W: fmt::Write>(&self, f: &mut fmt::Formatter<W>) -> fmt::Result {
        f.write_str(match self {
            Version::V1 => "v1",
            Version::V2 => "v2",
            Version::V3 => "v3",
        })
    }
}
