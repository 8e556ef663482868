//! What an order has in the three lines.
ghost use Rattle.std.specs.Prelude.{◌≡◌};
ghost use Rattle.memory.specs.Entries.{entries_of, no_entries, afterwards};

use board::board::Board;
use market::order::Order;
use market::rank::{BidRank, EndTime, OfferRank};
use queues::listed::Listed;

/// The entries of one order in the lines of bids, of offers and of end times.
#[derive(Clone, Copy, Default)]
pub struct Entries {
    pub bid: Option<BidRank>,
    pub offer: Option<OfferRank>,
    pub end: Option<EndTime>,
}

impl Entries {
    /// What an order has on the board.
    pub fn of(board: &Board, order: &Order) -> Entries
        ensures { result ≡ entries_of board.now order.now }
    {
        Entries {
            bid: BidRank::of(board, order),
            offer: OfferRank::of(board, order),
            end: EndTime::of(board, order),
        }
    }

    /// What an order that has left has.
    pub fn none() -> Entries
        ensures { result ≡ no_entries }
    {
        Entries::default()
    }

    /// What is left of an order has.
    pub fn after(board: &Board, left: Option<Order>) -> Entries
        ensures { result ≡ afterwards board.now left }
    {
        left.map_or(Entries::none(), |order| Entries::of(board, &order))
    }
}
