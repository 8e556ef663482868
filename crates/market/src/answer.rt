//! What a book answers.
use crate::record::Record;
use crate::refusal::Refusal;

/// What an accepted call brought.
#[derive(Clone, Copy)]
pub enum Accepted {
    /// The entry was accepted under this number.
    Entered(u32),
    /// The change, cancel or tick was accepted.
    Done,
    /// The tape was drawn from.
    Drawn(Record),
}

/// The one outcome of a call.
pub type Answer = Result<Accepted, Refusal>;

/// A side at a glance: its best price, and the displayed total of the first eight orders there.
#[derive(Clone, Copy)]
pub struct Summary {
    pub price: i32,
    pub size: u64,
}
