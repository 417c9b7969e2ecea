//! Texts that are printed piece by piece, into memory or through a buffer of a fixed size into a
//! sink. No piece is refused: whether all were taken is told at the end.
#![tactic(auto)]

mod digits;
mod number;
mod out;
mod quoted;
mod text_in_memory;
mod through;

pub use digits::put_hex;
pub use number::{put_long, put_number, put_signed};
pub use out::Out;
pub use quoted::put_quoted;
pub use text_in_memory::TextInMemory;
pub use through::Through;
