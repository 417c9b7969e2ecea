//! The records of a column, one step after another.
ghost use Rattle.std.specs.Prelude.{◌≡◌, length};
ghost use Rattle.std.specs.List.{zip};
ghost use Rattle.col_common.specs.Walks.{IsNext};
ghost use Rattle.col_writer_columns.specs.Operations.{operations_of, is_told};
ghost use Rattle.col_writer_columns.specs.declared.column_operation.ColumnOperation.TheVariants as operations;

use col_common::DocId;
use col_writer_rows::DocList;
use std::marker::Model;

/// A document, or a value of the last document.
#[derive(Clone, Copy, Debug, PartialEq, Eq)]
pub enum ColumnOperation<T> {
    NewDoc(DocId),
    Value(T),
}

impl<T> From<T> for ColumnOperation<T> {
    ghost from_gives = { λ value operation. operation ≡ operations.Value value };

    fn from(value: T) -> ColumnOperation<T> {
        ColumnOperation::Value(value)
    }
}

/// The records of a column in order, each document before its first value. Contracts see the steps
/// that are left.
#[derive(Drop)]
pub struct Operations<'a, T: Copy> {
    docs: &'a DocList,
    values: &'a [T],
    at: usize,
    told: Option<DocId>,
}

impl<'a, T: Copy> Model for Operations<'a, T> {
    ghost use Rattle.std.specs.Prelude.{◌≡◌, List, drop, length};
    ghost use Rattle.std.specs.List.{zip};
    ghost use Rattle.col_writer_columns.specs.declared.column_operation.ColumnOperation.{ColumnOperation};
    ghost use Rattle.col_writer_columns.specs.Operations.{operations_after};

    ghost Value = { List (ColumnOperation T) };

    ghost view = { λ s. operations_after s.told (drop s.at (zip s.docs.now s.values.now)) };

    ghost invariant = { λ s. length s.docs.now ≡ length s.values.now };
}

impl<'a, T: Copy> Operations<'a, T> {
    /// The records of values, each with its document.
    pub(crate) fn new(docs: &'a DocList, values: &'a [T]) -> Operations<'a, T>
        requires { length docs.now ≡ length values.now }
        ensures { result ≡ operations_of (zip docs.now values.now) }
    {
        Operations {
            docs,
            values,
            at: 0,
            told: None,
        }
    }

    /// The next step; none at the end.
    pub fn next(&mut self) -> Option<ColumnOperation<T>>
        ensures { IsNext self.old result self.new }
    {
        if self.at >= self.values.len() {
            return None;
        }
        let doc = self.docs.get(self.at);
        if !is_told(self.told, doc) {
            self.told = Some(doc);
            return Some(ColumnOperation::NewDoc(doc));
        }
        let value = self.values[self.at];
        self.at += 1;
        Some(ColumnOperation::Value(value))
    }
}

// Whether the last document that was told is this one.
#[inline(always)]
fn is_told(told: Option<DocId>, doc: DocId) -> bool
    ensures { result ≡ is_told told doc }
{
    match told {
        Some(last) => last == doc,
        None => false,
    }
}
