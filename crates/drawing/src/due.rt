//! Which step applies: the first of five.
ghost use Rattle.std.specs.Prelude.{◌≡◌, Some};
ghost use Rattle.rules.specs.Base.{or_else};
ghost use Rattle.rules.specs.Board.{meet};
ghost use Rattle.rules.specs.Draws.{rests, decided, incoming_of, passive_for, opening, pairing, removing, earlier, coming};
ghost use Rattle.memory.specs.Shown.{Whenever};
ghost use Rattle.drawing.specs.Due.{meant_of};

use board::board::Board;
use board::orders::numbered;
use draws::phases::phase_end;
use draws::removals;
use market::order::{Order, Side};
use market::record::Cause;
use market::state::Phase;
use memory::lines::BookLines;
use memory::memory::Memory;
use queues::best::prices_meet;
use queues::ends::first_ending;
use queues::first::{first_entitled, first_order};

/// What a draw is to do.
#[derive(Clone, Copy)]
pub enum Due {
    /// A session begins.
    Session { trigger: Order, passive: Order },
    /// A pair is filled.
    Pair { bid: Order, offer: Order },
    /// An order goes because of its type.
    Removal { order: Order, cause: Cause },
    /// The phase ends.
    PhaseEnd { time: u64 },
    /// An order's end time comes.
    Expiry { order: Order, time: u64 },
}

/// The incoming order, if it is live.
fn incoming_order(board: &Board) -> Option<Order>
    ensures { result ≡ incoming_of board.now.counters.incoming board.now.orders }
{
    let number = board.counters.incoming?;
    numbered(&board.orders, number)
}

/// The first order of the side that the trigger meets.
fn passive_for<L: BookLines>(memory: &Memory<L>, trigger: &Order) -> Option<Order>
    ensures { Whenever L.Bids.Line L.Offers.Line L.Ends.Line memory.now (λ k S. result ≡ passive_for S.board (Some trigger.now)) }
{
    match trigger.side {
        Side::Bid => first_order(&memory.board, &memory.offers),
        Side::Offer => first_order(&memory.board, &memory.bids),
    }
}

/// In Open, if prices meet, the incoming order begins a session with the first order of the other side.
fn session_due<L: BookLines>(memory: &Memory<L>, meets: bool) -> Option<Due>
    ensures { Whenever L.Bids.Line L.Offers.Line L.Ends.Line memory.now (λ k S. meets ≡ meet S.board.orders → meant_of result ≡ opening S.board) }
{
    let Phase::Open = memory.board.phase else {
        return None;
    };
    if !meets {
        return None;
    }
    let trigger = incoming_order(&memory.board)?;
    let passive = passive_for(memory, &trigger)?;
    Some(Due::Session { trigger, passive })
}

/// The first entitled order of each side.
fn pair_due<L: BookLines>(memory: &Memory<L>, meets: bool) -> Option<Due>
    ensures { Whenever L.Bids.Line L.Offers.Line L.Ends.Line memory.now (λ k S. meets ≡ meet S.board.orders → meant_of result ≡ pairing S.board) }
{
    let bid = first_entitled(&memory.board, &memory.bids, meets)?;
    let offer = first_entitled(&memory.board, &memory.offers, meets)?;
    Some(Due::Pair { bid, offer })
}

/// The earlier of the phase's end and an order's end time, by the wished time; the phase's end goes first.
fn earlier(wished: u64, turn: Option<u64>, ending: Option<(Order, u64)>) -> Option<Due>
    ensures { meant_of result ≡ earlier wished turn ending }
{
    match (turn, ending) {
        (Some(time), Some((_, end))) if time <= end => Some(Due::PhaseEnd { time }),
        (_, Some((order, time))) => Some(Due::Expiry { order, time }),
        (Some(time), None) if time <= wished => Some(Due::PhaseEnd { time }),
        (_, None) => None,
    }
}

/// The earliest moment that is due by the wished time.
fn moment_due<L: BookLines>(memory: &Memory<L>) -> Option<Due>
    ensures { Whenever L.Bids.Line L.Offers.Line L.Ends.Line memory.now (λ k S. meant_of result ≡ coming k S.board) }
{
    let board = &memory.board;
    let wished = board.clock.wished;
    let turn = phase_end(board, &memory.settings);
    let ending = first_ending(board, &memory.ends, wished);
    earlier(wished, turn, ending)
}

/// The order that must go because of its type.
fn removal_due(board: &Board) -> Option<Due>
    ensures { meant_of result ≡ removing board.now }
{
    let (order, cause) = removals::removal_due(board)?;
    Some(Due::Removal { order, cause })
}

/// The first of the steps that applies; none if nothing is left to do.
pub fn next_step<L: BookLines>(memory: &Memory<L>) -> Option<Due>
    ensures { Whenever L.Bids.Line L.Offers.Line L.Ends.Line memory.now (λ k S. or_else (meant_of result) rests ≡ decided k S.board) }
{
    let meets = prices_meet(&memory.bids, &memory.offers);
    // By early returns, the last one too: a chain of `or_else`, or the last answer handed on as it is, copies what may be due even if
    // nothing is.
    if let Some(due) = session_due(memory, meets) {
        return Some(due);
    }
    if let Some(due) = pair_due(memory, meets) {
        return Some(due);
    }
    if let Some(due) = removal_due(&memory.board) {
        return Some(due);
    }
    if let Some(due) = moment_due(memory) {
        return Some(due);
    }
    None
}
