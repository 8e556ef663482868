//! Tests of both rows, on a small kind of entry.
#![tactic(auto)]

#[cfg(test)]
mod tests;
