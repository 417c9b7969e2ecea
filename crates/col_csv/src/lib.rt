//! Tables as CSV: the texts of tables, the tables of texts, their laws, and why a table isn't
//! exchanged with CSV. Contracts see the definitions.
#![tactic(auto)]

mod csv_error;
mod laws;

pub use csv_error::CsvError;
pub use laws::{texts_are_exact, texts_are_sound, texts_lead_back, texts_read_back};
