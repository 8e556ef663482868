//! What the steps of a draw do to the board in memory and to the reserves. The lines of the book are not known here.
#![tactic(auto)]

pub mod edits;
pub mod fills;
pub mod phases;
mod remainder;
pub mod removals;
pub mod rows;
pub mod session;
pub mod start;
