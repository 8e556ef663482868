//! Draws: which step applies, and how a book in memory does it.
#![tactic(auto)]

pub mod beginning;
pub mod due;
pub mod machine;
pub mod removing;
pub mod resting;
pub mod trading;
pub mod turning;
