//! Documents: objects in JSON as fields with their values. Contracts see what a line says by the
//! definition.
#![tactic(auto)]

mod address;
mod document;
mod field;
mod form;
mod number;
mod refusal;
mod scalar;
mod time;

pub use document::{push_field, read_document};
pub use field::Field;
pub use form::{Form, form_of};
pub use refusal::{DocumentError, Reason, Refusal, ValueError};
pub use scalar::{number_in, text_in};

#[cfg(test)]
mod tests;
