//! Messages of every kind, as a host receives and sends them.
#![tactic(auto)]

pub mod message;
pub mod read;
