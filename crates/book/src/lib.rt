//! The book of one swap, over any three lines.
#![tactic(auto)]

pub mod book;
pub mod each_call;
pub mod play;
