//! Tests of the messages: every refusal of the readers and the writers, and the edges of every field.
#![tactic(auto)]

#[cfg(test)]
mod both;
#[cfg(test)]
mod calls;
#[cfg(test)]
mod outputs;
