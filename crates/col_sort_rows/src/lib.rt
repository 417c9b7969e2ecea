//! Rows in the order of keys. Contracts see the rows with a key, and those without one, as lists.
#![tactic(auto)]

mod by_digits;
mod joined_rows;
mod keyed_rows;
mod sort_key;
mod turns;
mod word_form;
mod words;

pub use keyed_rows::KeyedRows;
pub use sort_key::SortKey;
