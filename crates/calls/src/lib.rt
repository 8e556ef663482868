//! Calls: how a book in memory is opened, does what it is asked for, and answers as the rules define.
#![tactic(auto)]

pub mod cancelling;
pub mod changing;
pub mod entering;
pub mod glancing;
pub mod opening;
mod rooms;
pub mod ticking;
