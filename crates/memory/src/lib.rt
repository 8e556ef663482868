//! A book in memory, and how it shows what the rules make of its opening and the calls since.
#![tactic(auto)]

pub mod entries;
pub mod keeping;
pub mod lines;
pub mod memory;
