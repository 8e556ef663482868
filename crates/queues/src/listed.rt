//! Entries of lines that orders have.
ghost use Rattle.std.specs.Prelude.{◌≡◌, Bool, Some, Option};
ghost use Rattle.market.specs.declared.order.Order.{Order};
ghost use Rattle.rules.specs.Base.{is_some};
ghost use Rattle.rules.specs.Board.{Board as Rules};

use board::board::Board;
use line::entry::Entry;
use market::order::Order;
use market::rank::OfOrder;

/// A kind of entry that orders have in a line.
pub trait Listed: Entry + OfOrder {
    // The orders that have one.
    ghost mine: { Order → Bool };

    // The entry of an order on a board, if it has one.
    ghost listing: { Rules → Order → Option Self };

    /// The entry of `order` on the board, if it has one.
    fn of(board: &Board, order: &Order) -> Option<Self>
        ensures { result ≡ listing board.now order.now };

    // Those orders and no others.
    ghost has: { (b : Rules) (o : Order) → is_some (listing b o) ≡ mine o };

    // It has the order's number.
    ghost named: { (b : Rules) (o : Order) (x : Self) → listing b o ≡ Some x → Self.OfOrder.number x ≡ o.number };
}
