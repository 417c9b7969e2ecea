//! Opens columns whose type is told beside their bytes: as what they are, or as columns of numbers
//! in place of any. Contracts see what the bytes stand for.
#![tactic(auto)]

mod lenient;
mod open;
mod open_lenient;
mod usage;

pub use col_dynamic::{ColumnSpaceUsage, ColumnType, DynamicColumn, Version};
pub use lenient::{LenientColumn, LenientValues};
pub use open::open_column;
pub use open_lenient::open_column_u64_lenient;
pub use usage::space_usage_of;
