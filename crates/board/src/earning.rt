//! What traders have earned in the session for the FBS Period.
ghost use Rattle.std.specs.Prelude.{◌≡◌, true, ◌&&◌, nat_le};
ghost use Rattle.rules.specs.Base.{contest, find, first};
ghost use Rattle.rules.specs.Board.{of_trader};
ghost use Rattle.rules.specs.Privileges.{in_part, filled_sooner, as_carrier, second_priority, first_priority, earned};

use crate::seat::Seat;
use crate::seats::Seats;
use market::order::Order;
use market::state::{Carrier, Completion, Priority, Privilege};

/// Whether the first had its first fill in the session before the second.
fn is_filled_sooner(order: &Order, other: &Order) -> bool
    ensures { result ≡ filled_sooner order.now other.now }
{
    match (order.first, other.first) {
        (Some(mine), Some(theirs)) => mine < theirs,
        (Some(_), None) => true,
        (None, _) => false,
    }
}

/// Of an order and one found behind it in the table, the one that was filled first.
fn filled_first(order: Order, behind: Option<Order>) -> Option<Order>
    ensures { result ≡ contest true filled_sooner order behind }
{
    match behind {
        Some(other) if is_filled_sooner(&other, &order) => behind,
        _ => Some(order),
    }
}

/// Of the trader's orders on the side that were filled in part in the session, the one that was filled first.
fn first_filled(orders: &[Order], seat: Seat) -> Option<Order>
    ensures { result ≡ first (λ o. of_trader seat.trader seat.side o && in_part o) filled_sooner orders.now }
{
    orders
        .iter()
        .copied()
        .rev()
        .filter(|order| seat.owns(order) && order.first.is_some())
        .fold(None, |behind, order| filled_first(order, behind))
}

/// Whether the order is the trader's, on the side, and has this number or a later one.
fn is_since(order: &Order, seat: Seat, number: u32) -> bool
    ensures { result ≡ (of_trader seat.trader seat.side order.now && nat_le number order.now.number) }
{
    seat.owns(order) && number <= order.number
}

/// The lowest-numbered of the trader's orders on the side from this number on.
fn first_since(orders: &[Order], seat: Seat, number: u32) -> Option<Order>
    ensures { result ≡ find (λ o. of_trader seat.trader seat.side o && nat_le number o.number) orders.now }
{
    orders
        .iter()
        .find(|order| is_since(order, seat, number))
        .copied()
}

/// Who carries a Priority 2: this order, or nobody yet.
fn carrier_of(order: Option<Order>) -> Carrier
    ensures { result ≡ as_carrier order }
{
    order.map_or(Carrier::Free, |order| Carrier::Order(order.number))
}

/// The Priority 1 of an order that was filled in part: the fill earned it, and the order carries it.
fn first_priority(order: &Order) -> Option<Privilege>
    ensures { result ≡ first_priority order.now.first order.now }
{
    let earned = order.first?;
    Some(Privilege {
        priority: Priority::First,
        earned,
        carrier: Carrier::Order(order.number),
    })
}

/// The Priority 2 of a trader whose order was filled whole.
fn second_priority(
    completion: Option<Completion>,
    orders: &[Order],
    seat: Seat,
) -> Option<Privilege>
    ensures { result ≡ second_priority completion seat.trader seat.side orders.now }
{
    let done = completion?;
    Some(Privilege {
        priority: Priority::Second,
        earned: done.fill,
        carrier: carrier_of(first_since(orders, seat, done.number)),
    })
}

/// What the trader has earned on the side.
pub(crate) fn earned_by(
    orders: &[Order],
    completions: &Seats<Completion>,
    seat: Seat,
) -> Option<Privilege>
    ensures { result ≡ earned orders.now completions.now seat.trader seat.side }
{
    match first_filled(orders, seat) {
        Some(order) => first_priority(&order),
        None => second_priority(completions.at(seat), orders, seat),
    }
}
