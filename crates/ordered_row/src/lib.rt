//! A line that keeps its row in order.
#![tactic(auto)]

pub mod ordered_row;
