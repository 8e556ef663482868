//! A book in memory.
use crate::lines::BookLines;
use arrayvec::ArrayVec;
use board::board::Board;
use market::settings::Settings;

/// The book of one swap: what everybody may know, the reserve of each live order in the orders' order, and the lines, which hold
/// the ranks of the live bids, the ranks of the live offers, and the live end times.
#[derive(Drop)]
pub struct Memory<L: BookLines> {
    pub settings: Settings,
    pub board: Board,
    pub reserves: ArrayVec<u32, 128>,
    pub bids: L::Bids,
    pub offers: L::Offers,
    pub ends: L::Ends,
}
