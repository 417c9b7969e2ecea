//! Term dictionaries: terms and their ordinals, walks over terms in order, and the builder.
#![tactic(auto)]

mod dictionary;
mod dictionary_builder;
mod hash_chains;
mod laws;
mod streamer;
mod table;
mod term_arena;
mod term_hash;

pub use dictionary::{Dictionary, TermOrdHit};
pub use dictionary_builder::{DictionaryBuilder, OrderedId, TermIdMapping, UnorderedId};
pub use laws::{
    dictionaries_are_read_back, ordered_ids_compare_as_their_numbers,
    ordinals_have_the_order_of_their_terms, terms_are_those_given,
    unordered_ids_compare_as_their_numbers,
};
pub use streamer::Streamer;
