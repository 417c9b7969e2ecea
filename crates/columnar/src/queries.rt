//! Queries: which documents of a file have a column, or a value of a range, joined by and, or, not.

pub use col_opened::{OpenColumn, OpenColumns, open_all, open_where};
pub use col_query::{Query, QueryError, QueryValue, answer, documents_of, parse_query};
pub use col_questions::{Joint, Step};
