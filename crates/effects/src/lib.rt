//! What accepted calls do to the board in memory and to the reserves. The lines of the book are not known here.
#![tactic(auto)]

pub mod effects;
