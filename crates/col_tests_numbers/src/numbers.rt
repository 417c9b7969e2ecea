//! Lists of numbers under any codec, by examples.

mod choice;
mod claims;
mod codecs;
mod coercions;
mod line;
mod lists;
mod lookups;
