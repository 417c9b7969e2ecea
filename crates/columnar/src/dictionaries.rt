//! Terms and their ordinals: dictionaries that are read, walked and built.

pub use col_terms::{
    Dictionary, DictionaryBuilder, OrderedId, Streamer, TermIdMapping, TermOrdHit, UnorderedId,
};
