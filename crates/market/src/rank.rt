//! An order's place in the queue of its side, and its end time: what the lines of a book hold.
ghost use Rattle.std.specs.Prelude.{◌≡◌, ℕ};
ghost use Rattle.std.proofs.Common.{rules};
ghost use Rattle.market.specs.Ranks.{end_ahead, rank_ahead};
ghost use Rattle.market.specs.Soonest.{ranks-ordered};

use crate::price::SidePrice;
use crate::standing::Standing;
use line::entry::Entry;
use std::cmp::Reverse;

/// The rank of an order on its side: by better price, then by standing; the lower order number settles the rest.
#[derive(Clone, Copy, Default, PartialEq, Eq, PartialOrd, Ord)]
pub struct Rank<P> {
    pub price: P,
    pub standing: Standing,
    pub number: u32,
}

/// The rank of a bid: the higher price is better.
pub type BidRank = Rank<Reverse<i32>>;

/// The rank of an offer: the lower price is better.
pub type OfferRank = Rank<i32>;

/// When an order ends: the earlier goes first, and of two at once the lower order number.
#[derive(Clone, Copy, Default, PartialEq, Eq, PartialOrd, Ord)]
pub struct EndTime {
    pub end: u64,
    pub number: u32,
}

impl<P: SidePrice> Entry for Rank<P> {
    ghost ahead = { rank_ahead P.SIDE P.ticks };

    ghost irreflexive = { (ranks-ordered P.SIDE P.of P.ticks P.whole).irreflexive };

    ghost total = { (ranks-ordered P.SIDE P.of P.ticks P.whole).total };

    ghost transitive = { (ranks-ordered P.SIDE P.of P.ticks P.whole).transitive };

    fn is_ahead(&self, other: &Rank<P>) -> bool {
        self < other
    }
}

impl Entry for EndTime {
    ghost ahead = { end_ahead };

    ghost irreflexive = { Prim.search rules };

    ghost total = { Prim.search rules };

    ghost transitive = { Prim.search rules };

    fn is_ahead(&self, other: &EndTime) -> bool {
        self < other
    }
}

/// An entry of a line that stands for an order.
pub trait OfOrder {
    // The order's number.
    ghost number: { Self → ℕ };

    fn order(&self) -> u32
        ensures { result ≡ number self.now };
}

impl<P: SidePrice> OfOrder for Rank<P> {
    ghost number = { λ x. x.number };

    fn order(&self) -> u32 {
        self.number
    }
}

impl OfOrder for EndTime {
    ghost number = { λ x. x.number };

    fn order(&self) -> u32 {
        self.number
    }
}
