//! Ids in chains by the hashes of their terms.
ghost use Rattle.std.specs.Prelude.{◌≡◌, ◌-◌, ◌^◌, ◌<◌, length, slice_index, IfOk, OnOk};
ghost use Rattle.col_terms.specs.Hashing.{chain_of};

use std::alloc::{AllocError, Global};
use std::marker::Model;

// How many chains there are at first: a power of two.
const MIN_NUM_CHAINS: usize = 16;

/// The hashes of ids. Those of ids in one chain end in the same bits, and there are as many chains
/// as there is room for ids.
#[derive(Drop)]
pub struct HashChains {
    alloc: Global,
    // One more than the last id of each chain, or 0.
    heads: Vec<u32>,
    // One more than the id before each id in its chain, or 0.
    older: Vec<u32>,
    hashes: Vec<u32>,
    count: u32,
}

impl Model for HashChains {
    ghost use Rattle.col_terms.specs.Hashing.{Hashes, AreChains};

    ghost Value = { Hashes };

    ghost view = { λ c. record { hashes = c.hashes.items; count = c.count } };

    ghost invariant = { λ c. AreChains c.heads.items c.older.items
        (record { hashes = c.hashes.items; count = c.count }) };
}

impl HashChains {
    ghost use Rattle.col_terms.specs.Hashing.{chain_at, IsLast, KeepsHashes, AddsHash};

    /// Chains without ids.
    pub fn new(alloc: Global) -> HashChains
        ensures { result.count ≡ 0 }
    {
        HashChains {
            alloc,
            heads: Vec::new(alloc),
            older: Vec::new(alloc),
            hashes: Vec::new(alloc),
            count: 0,
        }
    }

    /// The hash of an id.
    #[inline]
    pub fn hash(&self, id: u32) -> u32
        requires { id < self.now.count }
        ensures { result ≡ slice_index self.now.hashes id }
    {
        self.hashes[id as usize]
    }

    /// One more than the last id in the chain of a hash, or 0.
    #[inline]
    pub fn newest(&self, hash: u32) -> u32
        ensures { IsLast self.now (chain_of (length self.now.hashes) hash) self.now.count result }
    {
        match self.heads.get(chain_of(self.heads.len(), hash)) {
            Some(head) => *head,
            None => 0,
        }
    }

    /// One more than the id before an id in its chain, or 0.
    #[inline]
    pub fn older(&self, id: u32) -> u32
        requires { id < self.now.count }
        ensures { IsLast self.now (chain_at self.now id) id result }
    {
        self.older[id as usize]
    }

    /// Makes room for one id more.
    #[inline]
    pub fn reserve(&mut self) -> Result<(), AllocError>
        ensures room { OnOk result (self.new.count < length self.new.hashes) }
        ensures kept { KeepsHashes self.old self.new }
    {
        if (self.count as usize) < self.hashes.len() {
            return Ok(());
        }
        self.grow()
    }

    // Makes chains twice as many.
    #[inline(never)]
    fn grow(&mut self) -> Result<(), AllocError>
        ensures room { OnOk result (self.new.count < length self.new.hashes) }
        ensures kept { KeepsHashes self.old self.new }
    {
        let num_chains = (self.hashes.len() * 2).max(MIN_NUM_CHAINS);
        let mut grown = HashChains::with_chains(self.alloc, num_chains)?;
        for id in 0..self.count {
            grown.push(self.hash(id));
        }
        *self = grown;
        Ok(())
    }

    // So many chains without ids.
    fn with_chains(alloc: Global, num_chains: usize) -> Result<HashChains, AllocError>
        ensures { IfOk result (λ c. (c.count ≡ 0) × (length c.hashes ≡ num_chains)) }
    {
        Ok(HashChains {
            alloc,
            heads: vec![in alloc; 0; num_chains]?,
            older: vec![in alloc; 0; num_chains]?,
            hashes: vec![in alloc; 0; num_chains]?,
            count: 0,
        })
    }

    /// Adds the next id, for which there is room, with its hash.
    #[inline]
    pub fn push(&mut self, hash: u32)
        requires room { self.old.count < length self.old.hashes }
        requires few { self.old.count < 2 ^ 32 - 1 }
        ensures { AddsHash self.old hash self.new }
    {
        let chain = chain_of(self.heads.len(), hash);
        let id = self.count as usize;
        self.hashes[id] = hash;
        self.older[id] = self.heads[chain];
        self.count += 1;
        self.heads[chain] = self.count;
    }
}

// The chain of a hash, of so many.
#[inline]
fn chain_of(num_chains: usize, hash: u32) -> usize
    ensures { result ≡ chain_of num_chains hash }
{
    hash as usize & num_chains.saturating_sub(1)
}
