//! Queues: how a line is kept in step with the live orders, and what is read along it.
#![tactic(auto)]

pub mod best;
pub mod ends;
pub mod first;
pub mod glance;
pub mod keeping;
pub mod kinds;
pub mod listed;
pub mod ranked;
mod walking;
