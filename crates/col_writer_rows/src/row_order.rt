//! Which document stands at each row.
ghost use Rattle.std.specs.Prelude.{◌≡◌, ◌⊎◌, ◌<◌, ◌^◌, ◌-◌, true, false, length, Some, Err, IfOk, IfErr, MatchOption, option_map, ◌==◌, not};
ghost use Rattle.std.specs.List.{range_with_len, list_all};
ghost use Rattle.col_model.specs.Written.{is_permutation};
ghost use Rattle.col_writer_rows.specs.RowOrders.{docs_placed, AreRowDocs, first_docs, noted};

use col_common::{ColumnarError, DocId, RowId};
use std::alloc::{AllocError, Global};
use std::marker::Model;

// No document has this number.
const NO_DOC: DocId = DocId::MAX;

/// The document that stands at each row; each has one. Contracts see these documents.
#[derive(Drop)]
pub struct RowOrder {
    num_docs: RowId,
    is_placed: bool,
    docs: Vec<DocId>,
}

impl Model for RowOrder {
    ghost use Rattle.std.specs.Prelude.{List, ℕ};
    ghost use Rattle.col_writer_rows.specs.RowOrders.{docs_by, AreRowDocs};

    ghost Value = { List ℕ };

    ghost view = { λ o. docs_by o.num_docs o.is_placed o.docs.items };

    ghost invariant = { λ o. AreRowDocs o.num_docs (docs_by o.num_docs o.is_placed o.docs.items) };
}

impl RowOrder {
    /// Each document stands at the row that the list has for it, or at its own where there is none.
    /// It answers BadOrder where the list isn't a permutation of the documents.
    pub fn new(
        alloc: Global,
        num_docs: RowId,
        old_to_new: Option<&[RowId]>,
    ) -> Result<RowOrder, ColumnarError>
        ensures ok { let perm = option_map (λ s. s.now) old_to_new.entry in
            IfOk result (λ o. (o ≡ docs_placed num_docs perm)
            × (is_permutation num_docs perm ≡ true)) }
        ensures bad_order { let perm = option_map (λ s. s.now) old_to_new.entry in
            result ≡ Err ColumnarError.BadOrder → is_permutation num_docs perm ≡ false }
        ensures err { IfErr result (λ e.
            (e ≡ ColumnarError.BadOrder) ⊎ (e ≡ ColumnarError.OutOfMemory)) }
    {
        match old_to_new {
            Some(rows) => RowOrder::from_permutation(alloc, num_docs, rows),
            None => Ok(RowOrder::by_document(alloc, num_docs)),
        }
    }

    /// Each document stands at its own row.
    pub fn by_document(alloc: Global, num_docs: RowId) -> RowOrder
        ensures { result ≡ range_with_len 0 num_docs }
    {
        RowOrder {
            num_docs,
            is_placed: false,
            docs: Vec::new(alloc),
        }
    }

    /// Each document stands at the row that the list has for it. It answers BadOrder where the list
    /// isn't a permutation of the documents.
    pub fn from_permutation(
        alloc: Global,
        num_docs: RowId,
        old_to_new: &[RowId],
    ) -> Result<RowOrder, ColumnarError>
        ensures ok { IfOk result (λ o. (o ≡ docs_placed num_docs (Some old_to_new.now))
            × (is_permutation num_docs (Some old_to_new.now) ≡ true)) }
        ensures bad_order { result ≡ Err ColumnarError.BadOrder →
            is_permutation num_docs (Some old_to_new.now) ≡ false }
        ensures err { IfErr result (λ e.
            (e ≡ ColumnarError.BadOrder) ⊎ (e ≡ ColumnarError.OutOfMemory)) }
    {
        if old_to_new.len() != num_docs as usize {
            return Err(ColumnarError::BadOrder);
        }
        let docs = first_docs(alloc, num_docs, old_to_new)?;
        if !has_all(&docs) {
            return Err(ColumnarError::BadOrder);
        }
        Ok(RowOrder {
            num_docs,
            is_placed: true,
            docs,
        })
    }

    /// How many rows there are.
    pub fn num_rows(&self) -> RowId
        ensures { result ≡ length self.now }
    {
        self.num_docs
    }

    /// That each document has one row, and that 32 bits count the rows.
    pub fn documents_have_rows(&self)
        ensures rows { AreRowDocs (length self.now) self.now }
        ensures few { length self.now < 2 ^ 32 }
    {
        // That its invariant holds, and that its count has 32 bits.
        let _ = &self.docs;
        let _num_docs = self.num_docs;
    }

    /// The documents by row, unless each stands at its own.
    pub(crate) fn placed(&self) -> Option<&[DocId]>
        ensures { MatchOption result (self.now ≡ range_with_len 0 (length self.now))
            (λ docs. docs.now ≡ self.now) }
    {
        if self.is_placed {
            Some(&self.docs)
        } else {
            None
        }
    }
}

// The first document of each row, as the documents have their rows; a mark where none has it.
fn first_docs(alloc: Global, num_docs: RowId, rows: &[RowId]) -> Result<Vec<DocId>, AllocError>
    requires { length rows.now ≡ num_docs }
    ensures { IfOk result (λ v. v.items ≡ first_docs num_docs rows.now) }
{
    let mut docs = vec![in alloc; NO_DOC; num_docs as usize]?;
    for (doc, row) in rows.iter().enumerate() {
        note_doc(&mut docs, doc as DocId, *row);
    }
    Ok(docs)
}

// Notes that a document has a row, unless another has it.
#[inline(always)]
fn note_doc(docs: &mut [DocId], doc: DocId, row: RowId)
    ensures { docs.new ≡ noted docs.old doc row }
{
    let row = row as usize;
    if row < docs.len() && docs[row] == NO_DOC {
        docs[row] = doc;
    }
}

// Whether no row has the mark.
fn has_all(docs: &[DocId]) -> bool
    ensures { result ≡ list_all (λ d. not (d == NO_DOC)) docs.now }
{
    docs.iter().all(|doc| *doc != NO_DOC)
}
