//! Best prices, and whether they meet.
ghost use Rattle.std.specs.Prelude.{◌≡◌, List};
ghost use Rattle.market.specs.Ranks.{bid_ahead, offer_ahead};
ghost use Rattle.market.specs.declared.order.Order.{Order};
ghost use Rattle.rules.specs.Board.{Board as Rules, best, cross, meet};
ghost use Rattle.queues.specs.Entries.{bid_entry, offer_entry};
ghost use Rattle.queues.specs.Lists.{Lists};
ghost use Rattle.queues.specs.Walks.{price_of};

use crate::ranked::Ranked;
use line::lines::Line;
use market::rank::{BidRank, OfferRank};

/// The price of a rank, if there is one.
fn price_of<T: Ranked>(rank: Option<T>) -> Option<i32>
    ensures { result ≡ price_of T.Ranked.price rank }
{
    rank.map(|rank| rank.price())
}

/// The best price of the line's side.
pub fn best_price<T: Ranked, L: Line<T>>(line: &L) -> Option<i32>
    ensures { (b : Rules) (os : List Order) → Lists T.Entry.ahead L.Line line.now os (T.Listed.listing b) → result ≡ best T.Ranked.side os }
{
    price_of(line.first())
}

/// Whether there are both, and the bid is at or above the offer.
fn crosses(bid: Option<i32>, offer: Option<i32>) -> bool
    ensures { result ≡ cross bid offer }
{
    match (bid, offer) {
        (Some(bid), Some(offer)) => offer <= bid,
        _ => false,
    }
}

/// Whether the best bid is at or above the best offer.
pub fn prices_meet<B: Line<BidRank>, O: Line<OfferRank>>(bids: &B, offers: &O) -> bool
    ensures { (b : Rules) (os : List Order) → Lists bid_ahead B.Line bids.now os (bid_entry b) → Lists offer_ahead O.Line offers.now os (offer_entry b) → result ≡ meet os }
{
    crosses(best_price(bids), best_price(offers))
}
