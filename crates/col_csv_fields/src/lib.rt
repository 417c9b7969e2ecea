//! The fields of CSV records: headings, numbers of rows and values, each read where the text is the
//! one that the value has.
#![tactic(auto)]

mod digits;
mod flag;
mod heading;
mod number;
#[cfg(test)]
mod tests;

pub use digits::{address_spelled, bytes_spelled};
pub use flag::flag_spelled;
pub use heading::key_spelled;
pub use number::{is_row_number, signed_spelled, unsigned_spelled};
