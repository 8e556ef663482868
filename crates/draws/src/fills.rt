//! A fill: a bid and an offer trade with each other.
ghost use Rattle.std.specs.Prelude.{◌≡◌};
ghost use Rattle.rules.specs.Board.{in_session};
ghost use Rattle.rules.specs.Entitlement.{prior_left};
ghost use Rattle.rules.specs.Fills.{displayed_of, completions_after, privileges_after, aggressor_after, session_after, fill_price};
ghost use Rattle.draws.specs.Remainders.{meant};
ghost use Rattle.draws.specs.Settled.{Settles, Fills};

use crate::edits::executed;
use crate::remainder::Remainder;
use crate::rows::reserve_at;
use arrayvec::ArrayVec;
use board::board::Board;
use board::completions::complete;
use board::orders::{is_prior_left, position};
use board::phases::in_session;
use board::privileges::Privileges;
use board::rows::put;
use board::seat::Seat;
use board::seats::Seats;
use market::order::Order;
use market::record::Fill;
use market::state::{Completion, Phase, Session};

/// A fill as the tape tells it, and what is left of its two orders: nothing of one that was filled whole.
#[derive(Clone, Copy)]
pub struct Filled {
    pub fill: Fill,
    pub bid: Option<Order>,
    pub offer: Option<Order>,
}

/// In a session at its price, otherwise at the price of the order that is not incoming.
fn fill_price(board: &Board, bid: &Order, offer: &Order) -> i32
    ensures { result ≡ fill_price (in_session board.now.phase) board.now bid.now offer.now }
{
    if in_session(board.phase) {
        return board.session.price;
    }
    match board.counters.incoming {
        Some(number) if number == bid.number => offer.price,
        _ => bid.price,
    }
}

fn displayed_of(order: Option<Order>) -> u32
    ensures { result ≡ displayed_of order }
{
    order.map_or(0, |order| order.displayed)
}

/// The Aggressive Owner after a fill.
fn aggressor_after(board: &Board) -> Option<u8>
    ensures { result ≡ aggressor_after board.now.phase (prior_left board.now.orders) board.now.session }
{
    let session = &board.session;
    match board.phase {
        Phase::Timed if !session.settled && !is_prior_left(&board.orders) => {
            Some(session.trigger)
        }
        _ => session.aggressor,
    }
}

/// The session after a fill of these orders, which the board no longer shows as they were.
fn session_after(board: &Board, bid: &Order, offer: &Order) -> Session
    ensures { result ≡ session_after board.now.phase (prior_left board.now.orders) board.now.clock.time bid.now offer.now board.now.session }
{
    let aggressor = aggressor_after(board);
    if !in_session(board.phase) {
        return Session {
            aggressor,
            ..board.session
        };
    }
    Session {
        aggressor,
        last: board.clock.time,
        buyer: Some(bid.trader),
        seller: Some(offer.trader),
        ..board.session
    }
}

/// In a session, an order that was filled whole may be its trader's first.
fn note_completion(
    completions: &mut Seats<Completion>,
    session: bool,
    remainder: Remainder,
    order: &Order,
    completion: Completion,
)
    ensures { completions.new ≡ completions_after (meant remainder) session order.now.trader order.now.side completion completions.old }
{
    match remainder {
        Remainder::Leaves if session => complete(completions, Seat::from(order), completion),
        _ => {}
    }
}

/// An order that was filled whole loses what it carried.
fn end_privilege(privileges: &mut Privileges, remainder: Remainder, order: &Order)
    ensures { privileges.new.slots ≡ privileges_after (meant remainder) order.now privileges.old.slots }
{
    match remainder {
        Remainder::Leaves => privileges.lose(Seat::from(order), order.number),
        Remainder::Stays | Remainder::Restocks(_) => {}
    }
}

/// What a fill with this number and of this size does to one of its two orders, which is answered if it is still live.
fn settle(
    board: &mut Board,
    reserves: &mut ArrayVec<u32, 128>,
    order: &Order,
    size: u32,
    fill: u64,
) -> Option<Order>
    ensures { Settles board.old reserves.old.items order.now size fill board.new reserves.new.items result }
{
    let session = in_session(board.phase);
    let row = position(&board.orders, order.number);
    let reserve = reserve_at(reserves, row);
    let remainder = Remainder::of(order.displayed.saturating_sub(size), order.shown, reserve);
    let stamp = board.counters.stamp;
    let after = remainder.order_after(stamp, &executed(session, fill, size, order));
    put(&mut board.orders, row, after);
    put(reserves, row, remainder.reserve_after(reserve));
    board.counters.stamp = remainder.stamp_after(stamp);
    let completion = Completion {
        fill,
        number: board.counters.number,
    };
    note_completion(
        &mut board.completions,
        session,
        remainder,
        order,
        completion,
    );
    end_privilege(&mut board.privileges, remainder, order);
    after
}

/// The bid and the offer trade the smaller of their displayed sizes.
pub fn fill(
    board: &mut Board,
    reserves: &mut ArrayVec<u32, 128>,
    bid: &Order,
    offer: &Order,
) -> Filled
    ensures { Fills board.old reserves.old.items bid.now offer.now board.new reserves.new.items result }
{
    let size = bid.displayed.min(offer.displayed);
    let number = board.counters.fills.saturating_add(1);
    let price = fill_price(board, bid, offer);
    let bid_left = settle(board, reserves, bid, size, number);
    let offer_left = settle(board, reserves, offer, size, number);
    board.counters.fills = number;
    board.session = session_after(board, bid, offer);
    let fill = Fill {
        price,
        size,
        bid: bid.number,
        bidleft: displayed_of(bid_left),
        offer: offer.number,
        offerleft: displayed_of(offer_left),
    };
    Filled {
        fill,
        bid: bid_left,
        offer: offer_left,
    }
}
