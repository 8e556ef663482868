//! Whether a call is accepted: its tests in their order, up to the first that it fails.
ghost use Rattle.std.specs.Prelude.{◌≡◌};
ghost use Rattle.rules.specs.Board.{Opening};
ghost use Rattle.rules.specs.Refusing.{is_size, line_full, owned, entry_refusal, change_refusal, cancel_refusal, tick_refusal};
ghost use Rattle.admission.specs.Checks.{Answers, Finds};

use crate::checks::*;
use board::board::Board;
use board::seat::Seat;
use line::lines::LineFault;
use market::call::{OrderCancel, OrderChange, OrderEntry};
use market::order::Order;
use market::refusal::{BookFault, Refusal};
use market::settings::Settings;

/// An entry, told whether a line that it needs is full.
pub fn check_entry(
    board: &Board,
    settings: &Settings,
    order: &OrderEntry,
    full: bool,
) -> Result<(), Refusal>
    ensures { (k : Opening) → k.settings ≡ settings.now → full ≡ line_full k board.now.orders order.now.side order.now.end → Answers (entry_refusal k board.now order.now (is_size k order.now.reserve)) result }
{
    check_quiet(board)?;
    check_trader(order.trader)?;
    check_price(order.price)?;
    check_sizes(settings, order.displayed, order.reserve)?;
    check_end(board, order.end)?;
    let price = board.entry_price(order.side, order.price);
    let seat = Seat {
        trader: order.trader,
        side: order.side,
    };
    check_own(board, seat, price)?;
    check_writes(board)?;
    check_orders(board)?;
    refused_if(full, LineFault::Full)?;
    Ok(())
}

/// A change, with the order that it names.
pub fn check_change(
    board: &Board,
    settings: &Settings,
    change: &OrderChange,
) -> Result<Order, Refusal>
    ensures { (k : Opening) → k.settings ≡ settings.now → Finds (change_refusal k board.now change.now (is_size k change.now.reserve)) (owned board.now change.now.trader change.now.number) result }
{
    check_quiet(board)?;
    check_trader(change.trader)?;
    let order = board
        .owned_by(change.trader, change.number)
        .ok_or(BookFault::Order)?;
    check_price(change.price)?;
    check_sizes(settings, change.displayed, change.reserve)?;
    check_better(board, order.side, change.price)?;
    let seat = Seat {
        trader: change.trader,
        side: order.side,
    };
    check_own(board, seat, change.price)?;
    check_writes(board)?;
    Ok(order)
}

/// A cancel, with the order that it names.
pub fn check_cancel(board: &Board, cancel: &OrderCancel) -> Result<Order, Refusal>
    ensures { Finds (cancel_refusal board.now cancel.now.trader cancel.now.number) (owned board.now cancel.now.trader cancel.now.number) result }
{
    check_quiet(board)?;
    check_trader(cancel.trader)?;
    let order = board
        .owned_by(cancel.trader, cancel.number)
        .ok_or(BookFault::Order)?;
    Ok(order)
}

/// A tick, which names the time to be reached.
pub fn check_tick(board: &Board, time: u64) -> Result<(), Refusal>
    ensures { Answers (tick_refusal board.now time) result }
{
    check_quiet(board)?;
    check_time(board, time)?;
    Ok(())
}
