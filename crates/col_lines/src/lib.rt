//! Lines of scripts, each a JSON text of a known shape: segments, record calls, required columns,
//! orders and questions. Contracts see what the definitions make of the same bytes.
#![tactic(auto)]

mod line;
mod parts;
mod plain;
mod print;
mod row_order;
mod term_type;

pub use col_questions::TypedValue;
pub use line::{Call, Line, parse_json, parse_line, parse_shape, read_line};
pub use parts::as_u32;
pub use plain::parse_plain;
pub use print::push_line;
pub use row_order::{RowOrder, SortKey};
pub use term_type::TermType;
