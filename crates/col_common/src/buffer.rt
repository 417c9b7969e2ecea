//! Bytes in memory as a sink that never fails.
ghost use Rattle.std.specs.Prelude.{false};
ghost use Rattle.col_common.specs.Outside.{in_memory};

use crate::{HandleError, Sink};
use std::alloc::Global;
use std::marker::Model;

/// Bytes that were written, one behind another. Want of memory alone refuses a write.
#[derive(Drop)]
pub struct Buffer {
    bytes: Vec<u8>,
}

impl Model for Buffer {
    ghost use Rattle.std.specs.Prelude.{ℕ, List};

    ghost Value = { List ℕ };

    ghost view = { λ b. b.bytes.items };
}

impl Buffer {
    ghost use Rattle.std.specs.Prelude.{◌≡◌, []};

    pub fn new(alloc: Global) -> Buffer
        ensures { result ≡ [] }
    {
        Buffer {
            bytes: Vec::new(alloc),
        }
    }

    /// What was written so far.
    pub fn as_slice(&self) -> &[u8]
        ensures { result.now ≡ self.now }
    {
        &self.bytes
    }

    /// The same, without the sink.
    pub fn into_bytes(self) -> Vec<u8>
        ensures { result.items ≡ self }
    {
        self.bytes
    }
}

impl Sink for Buffer {
    ghost seen = { in_memory };

    ghost in_parts = { false };

    fn write_all(&mut self, bytes: &[u8]) -> Result<(), HandleError> {
        Ok(self.bytes.extend_from_slice(bytes)?)
    }
}
