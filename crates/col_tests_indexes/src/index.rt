//! Indexes by examples.
mod claims;
mod kinds;
mod readings;
