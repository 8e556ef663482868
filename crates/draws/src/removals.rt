//! Orders that are removed.
ghost use Rattle.std.specs.Prelude.{◌≡◌, ℕ};
ghost use Rattle.rules.specs.Base.{find};
ghost use Rattle.rules.specs.Draws.{must_go, cause_of, removed_board};
ghost use Rattle.rules.specs.Rising.{Ascends};
ghost use Rattle.draws.specs.Removals.{removal_due, Kept};

use crate::phases::reach;
use arrayvec::ArrayVec;
use board::board::Board;
use board::phases::in_session;
use market::order::{Order, OrderType};
use market::record::Cause;

/// Whether the order is FaKI, or is FaK, filled in part and outside a session.
fn must_go(session: bool, order: &Order) -> bool
    ensures { result ≡ must_go session order.now.kind order.now.filled }
{
    match order.kind {
        OrderType::FaS => false,
        OrderType::FaK => order.filled && !session,
        OrderType::FaKI => true,
    }
}

/// Why an order of this type is removed, if not for its end time.
fn cause_of(kind: OrderType) -> Cause
    ensures { result ≡ cause_of kind }
{
    match kind {
        OrderType::FaS | OrderType::FaK => Cause::FaK,
        OrderType::FaKI => Cause::FaKI,
    }
}

/// The lowest-numbered order that must go.
fn first_to_go(orders: &[Order], session: bool) -> Option<Order>
    ensures { result ≡ find (λ o. must_go session o.kind o.filled) orders.now }
{
    orders.iter().find(|order| must_go(session, order)).copied()
}

/// The lowest-numbered order that must go, and why.
pub fn removal_due(board: &Board) -> Option<(Order, Cause)>
    ensures { result ≡ removal_due board.now }
{
    let order = first_to_go(&board.orders, in_session(board.phase))?;
    Some((order, cause_of(order.kind)))
}

/// The order is removed at this time.
pub fn remove(board: &mut Board, reserves: &mut ArrayVec<u32, 128>, order: &Order, time: u64)
    ensures board { (k m : ℕ) → Ascends k m board.old.orders → board.new ≡ removed_board board.old time order.now }
    ensures reserves { (k m : ℕ) → Ascends k m board.old.orders → Kept board.old.orders reserves.old.items board.new.orders reserves.new.items }
{
    board.strike(reserves, order);
    reach(&mut board.clock, time);
}
