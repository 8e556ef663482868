//! What all messages share: numbers in bytes, the highest byte first, and a head of four bytes: the length of the rest in two bytes,
//! the version and the kind.
#![tactic(auto)]

pub mod field;
pub mod frame;
pub mod number;
pub mod write;
