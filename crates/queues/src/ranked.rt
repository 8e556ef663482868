//! Entries of lines that rank the orders of a side.
ghost use Rattle.std.specs.Prelude.{◌≡◌, true, false, ℤ, Some};
ghost use Rattle.market.specs.declared.order.Order.{Order};
ghost use Rattle.market.specs.declared.order.Side.{Side};
ghost use Rattle.rules.specs.Board.{Board as Rules, on, better};
ghost use Rattle.rules.specs.Standings.{ahead};

use crate::listed::Listed;

/// A kind of entry that ranks the orders of one side.
pub trait Ranked: Listed {
    ghost side: { Side };

    ghost price: { Self → ℤ };

    fn price(&self) -> i32
        ensures { result ≡ price self.now };

    // The side's orders have one.
    ghost sided: { (o : Order) → Self.Listed.mine o ≡ on side o };

    // It has the order's price.
    ghost priced: { (b : Rules) (o : Order) (x : Self) → Self.Listed.listing b o ≡ Some x → price x ≡ o.price };

    // Of two orders the one is ahead whose entry is.
    ghost agrees: { (b : Rules) (o p : Order) (x y : Self) → Self.Listed.listing b o ≡ Some x → Self.Listed.listing b p ≡ Some y → Self.Entry.ahead x y ≡ ahead b o p };

    // No better price is behind.
    ghost cheaper: { (x y : Self) → Self.Entry.ahead x y ≡ true → better side (price y) (price x) ≡ false };
}
