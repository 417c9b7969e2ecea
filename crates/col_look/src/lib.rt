//! What a file holds, told for drawings: descriptions of columns, and bars of their numbers.
//! Contracts see what is told as a function of the cells.
#![tactic(auto)]

mod bar;
mod blocks;
mod description;
mod drawn;
mod ends;
mod lengths;
mod look_number;
mod places;
mod terms;
mod told;
mod valued_rows;

pub use bar::Bar;
pub use description::Description;
pub use drawn::bars;
pub use lengths::bar_len;
pub use told::describe;

#[cfg(test)]
mod tests;
