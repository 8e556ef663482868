//! The messages that a book takes: how calls are read from bytes and written as bytes.
#![tactic(auto)]

pub mod laws;
pub mod message;
pub mod read;
pub mod write;
