//! The messages that a book's host writes: the tape's records, and replies to the calls that are not draws.
#![tactic(auto)]

pub mod laws;
pub mod output;
pub mod read;
pub mod write;
