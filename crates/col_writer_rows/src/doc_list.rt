//! The documents of a column's values.
ghost use Rattle.std.specs.Prelude.{◌≡◌, ◌-◌, ◌^◌, ◌<◌, ◌==◌, ◌&&◌, [], ◌∷◌, ◌++◌, true, false, Some, length, slice_get, IfOk, OnOk, OnErr};
ghost use Rattle.col_common.specs.Ascending.{are_below, is_never_falling, is_rising};
ghost use Rattle.col_writer_rows.specs.Counted.{counts_of_rows};
ghost use Rattle.col_writer_rows.specs.Documents.{is_late_doc, all_from, IsCut};

use crate::row_counts::count_docs;
use col_common::{DocId, RowId};
use std::alloc::{AllocError, Global};
use std::marker::Model;

/// Documents that never fall. The first ones are 0, 1, 2 and so on, as far as that goes, and take
/// no room.
#[derive(Drop)]
pub struct DocList {
    num_dense: u32,
    others: Vec<DocId>,
}

impl Model for DocList {
    ghost use Rattle.std.specs.Prelude.{◌≡◌, List, ℕ, true};
    ghost use Rattle.col_common.specs.Ascending.{is_never_falling};
    ghost use Rattle.col_writer_rows.specs.Documents.{dense_then};

    ghost Value = { List ℕ };

    ghost view = { λ d. dense_then d.num_dense d.others.items };

    ghost invariant = { λ d. is_never_falling (dense_then d.num_dense d.others.items) ≡ true };
}

impl DocList {
    /// No documents.
    pub fn new(alloc: Global) -> DocList
        ensures { result ≡ [] }
    {
        DocList {
            num_dense: 0,
            others: Vec::new(alloc),
        }
    }

    /// Whether the last document is behind this one.
    #[inline]
    pub fn is_late(&self, doc: DocId) -> bool
        ensures { result ≡ is_late_doc self.now doc }
    {
        match self.others.last() {
            Some(last) => doc < *last,
            None => self.num_dense > 0 && doc < self.num_dense - 1,
        }
    }

    /// One document more.
    #[inline]
    pub fn push(&mut self, doc: DocId) -> Result<(), AllocError>
        requires order { is_late_doc self.old doc ≡ false }
        requires few { length self.old < 2 ^ 32 - 1 }
        ensures ok { OnOk result (self.new ≡ self.old ++ doc ∷ []) }
        ensures kept { OnErr result (self.new ≡ self.old) }
    {
        if is_next(self.num_dense, &self.others, doc) {
            self.num_dense += 1;
            return Ok(());
        }
        self.others.push(doc)?;
        Ok(())
    }

    /// Whether none is there twice.
    pub fn is_rising(&self) -> bool
        ensures { result ≡ is_rising self.now }
    {
        rise_from(u64::from(self.num_dense), &self.others)
    }

    /// That they never fall.
    pub fn never_fall(&self)
        ensures { is_never_falling self.now ≡ true }
    {
        // That the list's invariant holds.
        let _ = &self.others;
    }

    /// How many there are.
    pub fn len(&self) -> u64
        ensures { result ≡ length self.now }
    {
        u64::from(self.num_dense) + self.others.len() as u64
    }

    /// The one at a place.
    #[inline]
    pub fn get(&self, place: usize) -> DocId
        requires { place < length self.now }
        ensures { slice_get self.now place ≡ Some result }
    {
        let num_dense = self.num_dense as usize;
        if place < num_dense {
            return place as u32;
        }
        self.others[place - num_dense]
    }

    /// All of them.
    pub fn to_vec(&self, alloc: Global) -> Result<Vec<DocId>, AllocError>
        ensures { IfOk result (λ v. v.items ≡ self.now) }
    {
        let mut all = Vec::new(alloc);
        all.reserve(self.num_dense as usize)?;
        for doc in 0..self.num_dense {
            all.push(doc)?;
        }
        all.extend_from_slice(&self.others)?;
        Ok(all)
    }

    /// How many of them each of so many rows is.
    pub(crate) fn counts(&self, alloc: Global, num_docs: RowId) -> Result<Vec<u32>, AllocError>
        requires below { are_below num_docs self.now ≡ true }
        requires few { length self.now < 2 ^ 32 }
        ensures { IfOk result (λ v. v.items ≡ counts_of_rows num_docs self.now) }
    {
        let all = self.to_vec(alloc)?;
        count_docs(alloc, &all, num_docs)
    }

    /// Lets the last one go.
    pub fn pop(&mut self)
        requires { 0 < length self.old }
        ensures { IsCut self.old self.new }
    {
        if self.others.pop().is_none() {
            self.num_dense -= 1;
        }
    }
}

// Whether a document goes on with the first ones, so many, behind which none came.
#[inline(always)]
fn is_next(num_dense: u32, others: &[DocId], doc: DocId) -> bool
    ensures { result ≡ ((doc == num_dense) && (length others.now == 0)) }
{
    doc == num_dense && others.is_empty()
}

// Whether no document is below the least one, and each is above the one before it.
fn rise_from(least: u64, docs: &[DocId]) -> bool
    ensures { result ≡ all_from least docs.now }
{
    let mut at = least;
    for doc in docs {
        if u64::from(*doc) < at {
            return false;
        }
        at = u64::from(*doc) + 1;
    }
    true
}
