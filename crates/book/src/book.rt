//! The book.
use memory::lines::BookLines;
use memory::memory::Memory;

/// The book of one swap, over three lines: of the ranks of bids, of the ranks of offers, and of end times.
#[derive(Drop)]
pub struct Book<L: BookLines> {
    pub(crate) memory: Memory<L>,
}
