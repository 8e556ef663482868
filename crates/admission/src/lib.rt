//! Whether a call is accepted.
#![tactic(auto)]

pub mod calls;
pub mod checks;
