//! The tests that a call meets, each with the fault that it finds.
ghost use Rattle.std.specs.Prelude.{◌≡◌, not, ◌&&◌, ◌||◌, length, ◌==◌, nat_le, nat_lt};
ghost use Rattle.market.specs.declared.refusal.BookFault.TheVariants.{NotQuiet, Time, Trader, Price, Size, End, Better, Own, Writes, Orders};
ghost use Rattle.rules.specs.Board.{Opening, on, other, better, in_session};
ghost use Rattle.rules.specs.Refusing.{last_time, most_writes, most_orders, is_trader, is_price, is_size, bad_sizes, untimely, would_meet, own_meets};
ghost use Rattle.admission.specs.Checks.{refused_if};

use board::board::Board;
use board::prices::would_meet;
use board::seat::Seat;
use market::order::{Order, Side};
use market::refusal::BookFault;
use market::settings::Settings;

/// The last time that there is.
const LAST_TIME: u64 = 1_000_000_000_000;
/// The largest size, and so far a price may be from 0.
const LARGEST: u32 = 1_000_000;
/// How many entries and changes may be accepted.
const MOST_WRITES: u32 = 1_000_000;
/// How many orders may be live.
const MOST_ORDERS: usize = 128;

/// The fault, if the test is met.
pub(crate) fn refused_if<F>(met: bool, fault: F) -> Result<(), F>
where
    F: Drop,
    ensures { result ≡ refused_if met fault }
{
    if met { Err(fault) } else { Ok(()) }
}

/// The tape must have been drawn to quiet.
pub fn check_quiet(board: &Board) -> Result<(), BookFault>
    ensures { result ≡ refused_if (not board.now.clock.quiet) NotQuiet }
{
    refused_if(!board.clock.quiet, BookFault::NotQuiet)
}

/// Time does not run back, and has an end.
pub fn check_time(board: &Board, time: u64) -> Result<(), BookFault>
    ensures { result ≡ refused_if (nat_lt time board.now.clock.time || nat_lt last_time time) Time }
{
    refused_if(time < board.clock.time || time > LAST_TIME, BookFault::Time)
}

/// There are 128 traders.
pub fn check_trader(trader: u8) -> Result<(), BookFault>
    ensures { result ≡ refused_if (not (is_trader trader)) Trader }
{
    refused_if(!matches!(trader, 1..=128), BookFault::Trader)
}

pub fn check_price(price: i32) -> Result<(), BookFault>
    ensures { result ≡ refused_if (not (is_price price)) Price }
{
    refused_if(!matches!(price, -1_000_000..=1_000_000), BookFault::Price)
}

/// Whether the size is a multiple of the lot, and not too large.
fn is_size(settings: &Settings, size: u32) -> bool
    ensures { (k : Opening) → k.settings ≡ settings.now → result ≡ is_size k size }
{
    size % settings.lot() == 0 && size <= LARGEST
}

/// Both sizes must be multiples of the lot, and something must be displayed.
pub fn check_sizes(settings: &Settings, displayed: u32, reserve: u32) -> Result<(), BookFault>
    ensures { (k : Opening) → k.settings ≡ settings.now → result ≡ refused_if (bad_sizes k displayed (is_size k reserve)) Size }
{
    refused_if(
        !is_size(settings, displayed) || !is_size(settings, reserve) || displayed == 0,
        BookFault::Size,
    )
}

/// An end time must be after the book's time.
pub fn check_end(board: &Board, end: Option<u64>) -> Result<(), BookFault>
    ensures { result ≡ refused_if (untimely board.now.clock.time end) End }
{
    refused_if(
        end.is_some_and(|end| end <= board.clock.time || end > LAST_TIME),
        BookFault::End,
    )
}

/// A change in a session may not be better than its price.
pub fn check_better(board: &Board, side: Side, price: i32) -> Result<(), BookFault>
    ensures { result ≡ refused_if (in_session board.now.phase && better side price board.now.session.price) Better }
{
    refused_if(board.beats_session(side, price), BookFault::Better)
}

/// Whether the order is the trader's own on the other side, and would meet the price.
fn is_own_met(order: &Order, seat: Seat, price: i32) -> bool
    ensures { result ≡ (order.now.trader == seat.trader && (on (other seat.side) order.now && would_meet seat.side price order.now.price)) }
{
    seat.across().owns(order) && would_meet(seat.side, price, order.price)
}

fn is_own_met_among(orders: &[Order], seat: Seat, price: i32) -> bool
    ensures { result ≡ own_meets orders.now seat.trader seat.side price }
{
    orders.iter().any(|order| is_own_met(order, seat, price))
}

/// A trader's order may not meet one of his own.
pub fn check_own(board: &Board, seat: Seat, price: i32) -> Result<(), BookFault>
    ensures { result ≡ refused_if (own_meets board.now.orders seat.trader seat.side price) Own }
{
    refused_if(is_own_met_among(&board.orders, seat, price), BookFault::Own)
}

/// So many entries and changes as there may be are accepted, and no more.
pub fn check_writes(board: &Board) -> Result<(), BookFault>
    ensures { result ≡ refused_if (nat_le most_writes board.now.counters.writes) Writes }
{
    refused_if(board.counters.writes >= MOST_WRITES, BookFault::Writes)
}

/// One more order must not be too many.
pub fn check_orders(board: &Board) -> Result<(), BookFault>
    ensures { result ≡ refused_if (nat_le most_orders (length board.now.orders)) Orders }
{
    refused_if(board.orders.len() >= MOST_ORDERS, BookFault::Orders)
}
