//! The first orders along a line.
ghost use Rattle.std.specs.Prelude.{◌≡◌};
ghost use Rattle.rules.specs.Base.{first};
ghost use Rattle.rules.specs.Board.{on, meet};
ghost use Rattle.rules.specs.Standings.{ahead};
ghost use Rattle.rules.specs.Entitlement.{first_entitled};
ghost use Rattle.board.specs.Entitlements.{allowed};
ghost use Rattle.queues.specs.Lists.{InStep};
ghost use Rattle.queues.specs.Walks.{order_of, choice, walk};

use crate::best::best_price;
use crate::ranked::Ranked;
use crate::walking::Along;
use board::board::Board;
use board::entitlement::Entitlement;
use board::orders::numbered;
use line::lines::Line;
use market::order::Order;
use market::rank::OfOrder;

/// The order that an entry names, if there is one.
fn order_of<T: OfOrder + Copy>(orders: &[Order], entry: Option<T>) -> Option<Order>
    ensures { result ≡ order_of T.OfOrder.number orders.now entry }
{
    numbered(orders, entry?.order())
}

/// The first by rank of the side's orders.
pub fn first_order<T: Ranked, L: Line<T>>(board: &Board, line: &L) -> Option<Order>
    ensures { InStep T.Entry.ahead T.Listed.listing L.Line line.now board.now → result ≡ first (on T.Ranked.side) (ahead board.now) board.now.orders }
{
    order_of(&board.orders, line.first())
}

/// The order of an entry, if it may trade.
fn allowed_order<T: OfOrder>(
    orders: &[Order],
    entitlement: &Entitlement,
    entry: &T,
) -> Option<Order>
    ensures { result ≡ choice (allowed entitlement.now) T.OfOrder.number orders.now entry.now }
{
    numbered(orders, entry.order()).filter(|order| entitlement.allows(order))
}

/// The first order along the line that may trade.
fn first_allowed<T: Ranked, L: Line<T>>(
    orders: &[Order],
    entitlement: &Entitlement,
    line: &L,
) -> Option<Order>
    ensures { result ≡ walk (choice (allowed entitlement.now) T.OfOrder.number orders.now) (L.Line.entries line.now) }
{
    Along::new(line).find_map(|entry| allowed_order(orders, entitlement, &entry))
}

/// The first by rank of the side's entitled orders; `meets` tells whether prices meet.
pub fn first_entitled<T: Ranked, L: Line<T>>(board: &Board, line: &L, meets: bool) -> Option<Order>
    ensures { InStep T.Entry.ahead T.Listed.listing L.Line line.now board.now → meets ≡ meet board.now.orders → result ≡ first_entitled board.now T.Ranked.side }
{
    let entitlement = Entitlement::new(board, meets, best_price(line));
    first_allowed(&board.orders, &entitlement, line)
}
