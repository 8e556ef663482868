//! A session begins.
ghost use Rattle.std.specs.Prelude.{◌≡◌};
ghost use Rattle.rules.specs.Base.{each};
ghost use Rattle.rules.specs.Draws.{started, begun_board};

use crate::start::Start;
use arrayvec::ArrayVec;
use board::board::Board;
use board::seats::Seats;
use market::order::Order;
use market::state::{Phase, Session};

/// Every order starts the session.
fn start_orders(orders: &mut ArrayVec<Order, 128>, start: Start)
    ensures { orders.new.items ≡ each (started start.trigger start.passive start.price) orders.old.items }
{
    for order in orders.iter_mut() {
        *order = start.started(order);
    }
}

/// The trigger, which met the passive order, begins a session at the latter's price.
pub fn begin_session(board: &mut Board, trigger: &Order, passive: &Order)
    ensures { board.new ≡ begun_board board.old trigger.now passive.now }
{
    start_orders(&mut board.orders, Start::new(trigger, passive));
    board.phase = Phase::Timed;
    board.session = Session {
        price: passive.price,
        passive: passive.side,
        owner: passive.trader,
        trigger: trigger.trader,
        aggressor: None,
        settled: false,
        since: board.clock.time,
        last: board.clock.time,
        buyer: None,
        seller: None,
    };
    board.completions = Seats::new();
    board.privileges.clear();
}
