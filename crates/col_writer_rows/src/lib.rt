//! Documents of recorded values, and the columns of their rows. Contracts see the documents as a
//! list, and what was written as what stands in a column.
#![tactic(auto)]

mod addresses;
mod doc_list;
mod doc_rows;
mod limits;
mod numbers;
mod row_counts;
mod row_index;
mod row_order;
mod row_values;
mod texts;
mod ties;

pub use addresses::serialize_address_column;
pub use doc_list::DocList;
pub use limits::{is_dictionary_too_long, is_past_ties, need_too_many_codes};
pub use numbers::serialize_number_column;
pub use row_order::RowOrder;
pub use texts::serialize_text_column;
pub use ties::serialize_tie_column;
