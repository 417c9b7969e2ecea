//! Terms one behind another.
ghost use Rattle.std.specs.Prelude.{◌≡◌, ◌<◌, ◌≤◌, ◌++◌, ◌∷◌, [], length, slice_get, slice_index, Some, OnOk, OnErr, IsTrue};
ghost use Rattle.std.specs.List.{list_all};
ghost use Rattle.col_model.specs.Sound.{are_bytes};
ghost use Rattle.col_terms.specs.Building.{counted_bytes};

use std::alloc::{AllocError, Global};
use std::marker::Model;

/// Terms in the order of their ids, in one list of bytes.
#[derive(Drop)]
pub struct TermArena {
    bytes: Vec<u8>,
    ends: Vec<u64>,
}

impl Model for TermArena {
    ghost use Rattle.std.specs.Prelude.{List, ℕ};
    ghost use Rattle.col_terms.specs.TermTable.{terms_by};
    ghost use Rattle.col_terms.specs.Building.{HoldsTerms};

    ghost Value = { List (List ℕ) };

    ghost view = { λ a. terms_by a.ends.items a.bytes.items };

    ghost invariant = { λ a. HoldsTerms a.bytes.items a.ends.items
        (terms_by a.ends.items a.bytes.items) };
}

impl TermArena {
    /// No terms.
    pub fn new(alloc: Global) -> TermArena
        ensures { result ≡ [] }
    {
        TermArena {
            bytes: Vec::new(alloc),
            ends: Vec::new(alloc),
        }
    }

    /// How many terms there are.
    #[inline]
    pub fn len(&self) -> usize
        ensures { result ≡ length self.now }
    {
        self.ends.len()
    }

    /// How many bytes the terms have.
    pub fn num_bytes(&self) -> u64
        ensures { result ≡ counted_bytes self.now }
    {
        self.bytes.len() as u64
    }

    /// That the terms are lists of bytes.
    pub fn terms_are_bytes(&self)
        ensures { IsTrue (list_all are_bytes self.now) }
    {
        bytes_fit(&self.bytes);
    }

    /// The term of an id.
    #[inline]
    pub fn get(&self, id: u32) -> &[u8]
        requires { id < length self.now }
        ensures { slice_get self.now id ≡ Some result.now }
    {
        let start = start_of(&self.ends, id as usize) as usize;
        &self.bytes[start..self.ends[id as usize] as usize]
    }

    /// Adds a term.
    pub fn push(&mut self, term: &[u8]) -> Result<(), AllocError>
        ensures ok { OnOk result (self.new ≡ self.old ++ term.now ∷ []) }
        ensures kept { OnErr result (self.new ≡ self.old) }
    {
        self.ends.reserve(1)?;
        self.bytes.extend_from_slice(term)?;
        self.ends.push_reserved(self.bytes.len() as u64);
        Ok(())
    }
}

// That each byte is below 256.
fn bytes_fit(bytes: &[u8])
    ensures { IsTrue (are_bytes bytes.now) }
{
    let _ = bytes;
}

// Where a term starts, which is where the one before ends.
#[inline]
fn start_of(ends: &[u64], at: usize) -> u64
    requires { at ≤ length ends.now }
    ensures { result ≡ slice_index (0 ∷ ends.now) at }
{
    if at == 0 {
        return 0;
    }
    ends[at - 1]
}
