//! Counts of bytes.
ghost use Rattle.std.specs.Prelude.{◌≡◌, ◌+◌, ◌^◌, ◌-◌, min};

use serde::{Deserialize, Serialize};
use std::marker::Model;
use std::ops::Add;

/// A count of bytes. Contracts see the number.
#[derive(Clone, Copy, Debug, Default, PartialEq, Eq, PartialOrd, Ord, Serialize, Deserialize)]
pub struct ByteCount(u64);

impl Model for ByteCount {
    ghost use Rattle.std.specs.Prelude.{ℕ};

    ghost Value = { ℕ };

    ghost view = { λ s. s.0 };

    ghost inverse = { λ n. record { 0 = n } };
}

impl ByteCount {
    /// The number of bytes.
    pub fn get_bytes(self) -> u64
        ensures { result ≡ self }
    {
        self.0
    }
}

impl From<u64> for ByteCount {
    ghost from_gives = { λ bytes count. count ≡ bytes };

    fn from(bytes: u64) -> ByteCount {
        ByteCount(bytes)
    }
}

impl Add for ByteCount {
    type Output = ByteCount;

    ghost add_gives = { λ a b count. count ≡ min (a + b) (2 ^ 64 - 1) };

    /// The sum, or the greatest count where it is past that.
    fn add(self, other: ByteCount) -> ByteCount {
        ByteCount(self.0.saturating_add(other.0))
    }
}
