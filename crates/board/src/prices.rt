//! Sides and prices.
ghost use Rattle.std.specs.Prelude.{◌≡◌};
ghost use Rattle.rules.specs.Board.{other, better};
ghost use Rattle.rules.specs.Refusing.{would_meet};

use market::order::Side;

// These are no methods of `Side`, which is a type of `market`: their contracts have the words of the rules.

pub fn other_side(side: Side) -> Side
    ensures { result ≡ other side }
{
    match side {
        Side::Bid => Side::Offer,
        Side::Offer => Side::Bid,
    }
}

/// Whether a price is better than another on the side: a bid is if higher, an offer if lower.
pub fn is_better(side: Side, price: i32, against: i32) -> bool
    ensures { result ≡ better side price against }
{
    match side {
        Side::Bid => price > against,
        Side::Offer => price < against,
    }
}

/// Whether a price on the side would meet a price of the other side.
pub fn would_meet(side: Side, price: i32, against: i32) -> bool
    ensures { result ≡ would_meet side price against }
{
    match side {
        Side::Bid => price >= against,
        Side::Offer => price <= against,
    }
}
