//! A price as the ranks of one side compare it: the better of two is the lesser.
ghost use Rattle.std.specs.Prelude.{◌≡◌, ℤ};
ghost use Rattle.std.proofs.Common.{rules};
ghost use Rattle.market.specs.declared.order.Side.{Side};
ghost use Rattle.market.specs.declared.order.Side.TheVariants.{Bid, Offer};
ghost use Rattle.market.specs.Ranks.{price_cmp};

use crate::order::Side;
use std::cmp::Reverse;

/// The price of an order of one side, ordered as that side's ranks are.
pub trait SidePrice: Ord + Copy {
    /// The side whose prices these are.
    const SIDE: Side;

    ghost SIDE: { Side };

    ghost of: { ℤ → Self };

    ghost ticks: { Self → ℤ };

    /// An order's price as it is compared.
    fn of(price: i32) -> Self
        ensures { result ≡ of price };

    /// The order's price.
    fn ticks(self) -> i32
        ensures { result ≡ ticks self };

    // Prices are compared as their side's ranks compare them.
    ghost ordered: { (x y : Self) → Self.Ord.cmp x y ≡ price_cmp SIDE (ticks x) (ticks y) };

    // A price is its number of ticks, and each number is one price's.
    ghost whole: { (x : Self) → of (ticks x) ≡ x };

    ghost kept: { (p : ℤ) → ticks (of p) ≡ p };
}

/// Of two bids the higher is better.
impl SidePrice for Reverse<i32> {
    const SIDE: Side = Side::Bid;

    ghost SIDE = { Bid };

    ghost of = { λ p. record { 0 = p } };

    ghost ticks = { λ x. x.0 };

    ghost ordered = { Prim.search rules };

    ghost whole = { Prim.search rules };

    ghost kept = { Prim.search rules };

    fn of(price: i32) -> Reverse<i32> {
        Reverse(price)
    }

    fn ticks(self) -> i32 {
        self.0
    }
}

/// Of two offers the lower is better.
impl SidePrice for i32 {
    const SIDE: Side = Side::Offer;

    ghost SIDE = { Offer };

    ghost of = { λ p. p };

    ghost ticks = { λ x. x };

    ghost ordered = { Prim.search rules };

    ghost whole = { Prim.search rules };

    ghost kept = { Prim.search rules };

    fn of(price: i32) -> i32 {
        price
    }

    fn ticks(self) -> i32 {
        self
    }
}
