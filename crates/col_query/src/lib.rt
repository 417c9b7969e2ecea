//! Queries over an open file: which documents have a column, or a value of a range, and sets of
//! documents joined by and, or and not. Contracts see a query as its tree.
#![tactic(auto)]

mod answers;
mod doc_set;
mod evaluate;
mod find;
mod laws;
mod lists;
mod named;
mod stack;
mod words;

pub use answers::{answer, documents_of};
pub use col_questions::{Query, QueryError, QueryValue, parse_query};
pub use find::{put_between, put_docs_between};
pub use laws::{and_takes_any_order, not_of_and_is_or_of_nots};
