//! The board in memory: all of a book's state that everybody may know. Reserves are kept apart from it.
#![tactic(auto)]

pub mod board;
pub mod completions;
mod earning;
pub mod entitled;
pub mod entitlement;
pub mod fresh;
pub mod orders;
pub mod phases;
pub mod prices;
pub mod privileges;
pub mod rows;
pub mod seat;
pub mod seats;
pub mod session;
pub mod standing;
pub mod striking;
