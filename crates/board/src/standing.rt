//! Where orders stand in the queues.
ghost use Rattle.std.specs.Prelude.{◌≡◌};
ghost use Rattle.rules.specs.Base.{names};
ghost use Rattle.rules.specs.Standings.{plain, privileged, favoured, last_on, standing, rank_of};
ghost use Rattle.board.specs.EndTimes.{end_time};

use crate::board::Board;
use crate::privileges::is_carried_by;
use crate::seat::Seat;
use market::order::{Order, Side};
use market::price::SidePrice;
use market::rank::{EndTime, Rank};
use market::standing::Standing;
use market::state::{Phase, Priority, Privilege, Session};
use std::cmp::Reverse;

/// By its stamp alone.
fn plain(order: &Order) -> Standing
    ensures { result ≡ plain order.now }
{
    Standing::Plain(order.stamp)
}

/// By what was earned.
fn by_privilege(privilege: &Privilege) -> Standing
    ensures { result ≡ privileged privilege.now.priority privilege.now.earned }
{
    match privilege.priority {
        Priority::First => Standing::First(privilege.earned),
        Priority::Second => Standing::Second(Reverse(privilege.earned)),
    }
}

/// By its trader's privilege, if it carries that.
fn by_carrier(held: Option<Privilege>, order: &Order) -> Standing
    ensures { result ≡ favoured held order.now }
{
    match held {
        Some(privilege) if is_carried_by(&privilege, order.number) => by_privilege(&privilege),
        _ => plain(order),
    }
}

/// Whether the trader is the Last Buyer or the Last Seller, by the side.
fn is_last(session: &Session, side: Side, trader: u8) -> bool
    ensures { result ≡ names (last_on side session.now.buyer session.now.seller) trader }
{
    let last = match side {
        Side::Bid => session.buyer,
        Side::Offer => session.seller,
    };
    last == Some(trader)
}

/// Where the order stands among those at its price.
pub fn standing_of(board: &Board, order: &Order) -> Standing
    ensures { result ≡ standing board.now order.now }
{
    match board.phase {
        Phase::Open | Phase::Timed | Phase::Rolling => plain(order),
        Phase::Fbs if is_last(&board.session, order.side, order.trader) => Standing::Last(
            order.stamp,
        ),
        Phase::Fbs => by_carrier(board.privileges.of(Seat::from(order)), order),
    }
}

/// The rank of an order on its side.
pub fn rank_of<P: SidePrice>(board: &Board, order: &Order) -> Rank<P>
    ensures { result ≡ rank_of (P.of order.now.price) board.now order.now }
{
    Rank {
        price: P::of(order.price),
        standing: standing_of(board, order),
        number: order.number,
    }
}

/// When the order ends, if it does.
pub fn end_time(order: &Order) -> Option<EndTime>
    ensures { result ≡ end_time order.now }
{
    let end = order.end?;
    Some(EndTime {
        end,
        number: order.number,
    })
}
