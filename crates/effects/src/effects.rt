//! What accepted calls do to the board, and to the reserves, which stand in the same rows as their orders.
ghost use Rattle.std.specs.Prelude.{◌≡◌, if◌then◌else◌};
ghost use Rattle.rules.specs.Refusing.{entry_price};
ghost use Rattle.rules.specs.Calls.{awaiting, entered, takes_stamp, changed, ticked_board};
ghost use Rattle.effects.specs.Effects.{claimed_board, forfeited_board, Enters, Changes, Cancels};

use arrayvec::ArrayVec;
use board::board::Board;
use board::orders::position;
use board::phases::in_fbs;
use board::prices::is_better;
use board::rows::put;
use board::seat::Seat;
use market::call::{OrderChange, OrderEntry};
use market::order::Order;
use market::state::{Clock, Counters};

/// After an accepted call the tape must be drawn to quiet, by the wished time.
fn await_draws(clock: &mut Clock, wished: u64)
    ensures { clock.new ≡ awaiting wished clock.old }
{
    clock.wished = wished;
    clock.quiet = false;
}

/// After an accepted call that is no tick, the tape must be drawn to quiet by the book's own time.
fn await_draws_now(clock: &mut Clock)
    ensures { clock.new ≡ awaiting clock.old.time clock.old }
{
    let time = clock.time;
    await_draws(clock, time);
}

/// In the FBS Period an entry at the session's price or worse takes what its trader has on the side, if that is free.
fn claim(board: &mut Board, wanted: &OrderEntry, order: &Order)
    ensures { board.new ≡ claimed_board board.old wanted.now order.now }
{
    if in_fbs(board.phase) && !is_better(wanted.side, order.price, board.session.price) {
        let seat = Seat {
            trader: wanted.trader,
            side: wanted.side,
        };
        board.privileges.take(seat, order.number);
    }
}

/// In the FBS Period a price better than the session's ends what the order carries.
fn forfeit(board: &mut Board, order: &Order, price: i32)
    ensures { board.new ≡ forfeited_board board.old order.now price }
{
    if in_fbs(board.phase) && is_better(order.side, price, board.session.price) {
        board.privileges.lose(Seat::from(order), order.number);
    }
}

/// The new order of an entry.
fn new_order(board: &Board, wanted: &OrderEntry) -> Order
    ensures { result ≡ entered wanted.now board.now.counters.number board.now.counters.stamp (entry_price board.now wanted.now.side wanted.now.price) }
{
    Order {
        number: board.counters.number,
        trader: wanted.trader,
        side: wanted.side,
        kind: wanted.kind,
        price: board.entry_price(wanted.side, wanted.price),
        displayed: wanted.displayed,
        shown: wanted.displayed,
        end: wanted.end,
        stamp: board.counters.stamp,
        filled: false,
        first: None,
        prior: false,
    }
}

/// The entry becomes a live order, which is answered.
pub fn enter(board: &mut Board, reserves: &mut ArrayVec<u32, 128>, wanted: &OrderEntry) -> Order
    ensures { Enters wanted.now result board.old board.new reserves.old.items reserves.new.items }
{
    let order = new_order(board, wanted);
    claim(board, wanted, &order);
    // An accepted entry finds room.
    let _ = board.orders.try_push(order);
    let _ = reserves.try_push(wanted.reserve);
    board.counters = Counters {
        number: board.counters.number.saturating_add(1),
        stamp: board.counters.stamp.saturating_add(1),
        writes: board.counters.writes.saturating_add(1),
        incoming: Some(order.number),
        ..board.counters
    };
    await_draws_now(&mut board.clock);
    order
}

/// A new price or a larger displayed size takes a new stamp.
fn takes_stamp(change: &OrderChange, order: &Order) -> bool
    ensures { result ≡ takes_stamp change.now order.now }
{
    change.price != order.price || order.displayed < change.displayed
}

/// The new stamp, if one is taken.
// A test and not an option of the stamp, as the rules tell it: the order, whether it stays prior, and the counter all go by it.
fn stamp_of(anew: bool, stamp: u64, old: u64) -> u64
    ensures { result ≡ (if anew then stamp else old) }
{
    if anew { stamp } else { old }
}

/// The order as it is changed. With a new stamp it is prior no more.
fn changed_order(change: &OrderChange, anew: bool, stamp: u64, order: &Order) -> Order
    ensures { result ≡ changed change.now anew stamp order.now }
{
    Order {
        price: change.price,
        displayed: change.displayed,
        shown: change.displayed,
        stamp: stamp_of(anew, stamp, order.stamp),
        prior: !anew && order.prior,
        ..*order
    }
}

/// Price and sizes of the order are written anew. The order as it is then is answered.
pub fn change(
    board: &mut Board,
    reserves: &mut ArrayVec<u32, 128>,
    change: &OrderChange,
    order: &Order,
) -> Order
    ensures { Changes change.now order.now result board.old board.new reserves.old.items reserves.new.items }
{
    let stamp = board.counters.stamp;
    let anew = takes_stamp(change, order);
    let after = changed_order(change, anew, stamp, order);
    let row = position(&board.orders, order.number);
    put(&mut board.orders, row, Some(after));
    put(reserves, row, Some(change.reserve));
    forfeit(board, order, change.price);
    board.counters = Counters {
        stamp: stamp_of(anew, stamp.saturating_add(1), stamp),
        writes: board.counters.writes.saturating_add(1),
        incoming: Some(order.number),
        ..board.counters
    };
    await_draws_now(&mut board.clock);
    after
}

/// The order is taken back.
pub fn cancel(board: &mut Board, reserves: &mut ArrayVec<u32, 128>, order: &Order)
    ensures { Cancels order.now board.old board.new reserves.old.items reserves.new.items }
{
    board.strike(reserves, order);
    await_draws_now(&mut board.clock);
}

/// The book is to reach this time.
pub fn tick(board: &mut Board, time: u64)
    ensures { board.new ≡ ticked_board board.old time }
{
    await_draws(&mut board.clock, time);
}
