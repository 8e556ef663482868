//! A line that keeps its row as a heap.
#![tactic(auto)]

mod heap;
pub mod heap_row;
