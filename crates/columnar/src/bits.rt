//! Numbers of few bits, integers of as many bytes as they want, and sets of small numbers.

pub use col_bits::{BitPacker, BitUnpacker, compute_num_bits, minmax};
pub use col_common::{BitSet, BitSetIter, VInt, VIntU128, place_bits, pop_first_byte, select_bits};
