//! What is asked of a table, and the values in scripts: lookups, facets and queries, read from
//! JSON. Contracts see what the definitions make of the same JSON, and a query as its tree.
#![tactic(auto)]

mod ends;
mod lookup;
mod parse;
mod parts;
mod query;
mod query_error;
mod query_value;
mod question;
mod step;
mod value;

pub use lookup::{Ends, Find};
pub use parse::parse_query;
pub use parts::{as_type, bytes_spelled, ip_addr_spelled, take_text, type_named};
pub use query::Query;
pub use query_error::QueryError;
pub use query_value::QueryValue;
pub use question::Question;
pub use step::{Joint, Step};
pub use value::{TypedValue, take_ends, take_value};
