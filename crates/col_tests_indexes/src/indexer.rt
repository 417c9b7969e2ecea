//! Indexes on their way, by examples.
mod written;
