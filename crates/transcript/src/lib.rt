//! Messages and refusals in plain words.
#![tactic(auto)]

pub mod show;
