//! A text in memory.
ghost use Rattle.std.specs.Prelude.{◌≡◌, [], ℕ, List, IfOk, Ok};
ghost use Rattle.col_common.specs.Outside.{in_memory};
ghost use Rattle.col_print.specs.Puts.{HasPut, SeenOut};

use crate::Out;
use col_common::HandleError;
use std::alloc::{AllocError, Global};

/// A text that grows in memory. Where memory was wanting, it is given up.
#[derive(Drop)]
pub struct TextInMemory {
    bytes: Vec<u8>,
    ended: Result<(), HandleError>,
}

impl TextInMemory {
    /// No text.
    pub fn new(alloc: Global) -> TextInMemory
        ensures { ⟦<TextInMemory as Out>⟧.seen result
            ≡ record { place = 0; sink = in_memory []; pending = []; ended = Ok tt } }
    {
        TextInMemory {
            bytes: Vec::new(alloc),
            ended: Ok(()),
        }
    }

    /// The text that was put.
    pub fn into_bytes(self) -> Result<Vec<u8>, AllocError>
        ensures { (text : List ℕ)
            → HasPut (in_memory []) (⟦<TextInMemory as Out>⟧.seen self) text
            → IfOk result (λ bytes. bytes.items ≡ text) }
    {
        match self.ended {
            Ok(()) => Ok(self.bytes),
            Err(_) => Err(AllocError),
        }
    }
}

impl Out for TextInMemory {
    ghost seen = { λ t. record {
      place = 0;
      sink = in_memory [];
      pending = t.bytes.items;
      ended = t.ended;
    } };

    fn put(&mut self, bytes: &[u8]) {
        if self.ended.is_err() {
            return;
        }
        if self.bytes.extend_from_slice(bytes).is_err() {
            self.ended = Err(HandleError::Memory);
        }
    }

    #[inline]
    fn is_refused(&self) -> bool {
        self.ended.is_err()
    }
}
