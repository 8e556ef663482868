//! Calls as lines of plain words.
#![tactic(auto)]

pub mod fault;
mod numeral;
pub mod parse;
mod word;
