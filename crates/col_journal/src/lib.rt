//! A journal of changes on a disk that may crash at any moment. Contracts see which changes a
//! disk's bytes stand for.
#![tactic(auto)]

mod found;
mod gates;
mod journal;
mod reading;

pub use found::Found;
pub use journal::Journal;
pub use reading::{next_change, ready};

#[cfg(test)]
mod tests;
