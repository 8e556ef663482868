//! The vocabulary of the venue: what is traded, what traders ask, what the tape tells, and why a call is refused.
#![tactic(auto)]

pub mod answer;
pub mod call;
pub mod making;
pub mod order;
pub mod price;
pub mod rank;
pub mod record;
pub mod refusal;
pub mod settings;
pub mod standing;
pub mod state;
