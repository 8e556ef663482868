//! The end times of orders.
ghost use Rattle.std.specs.Prelude.{◌≡◌};
ghost use Rattle.market.specs.Ranks.{end_ahead};
ghost use Rattle.rules.specs.Draws.{expiring};
ghost use Rattle.board.specs.EndTimes.{end_time};
ghost use Rattle.queues.specs.Lists.{InStep};
ghost use Rattle.queues.specs.Walks.{ending_by};

use board::board::Board;
use board::orders::numbered;
use line::lines::Line;
use market::order::Order;
use market::rank::EndTime;

/// The order that an end time names, and when it ends, if that is by the wished time.
fn ending(orders: &[Order], first: Option<EndTime>, wished: u64) -> Option<(Order, u64)>
    ensures { result ≡ ending_by wished orders.now first }
{
    let first = first?;
    if first.end > wished {
        return None;
    }
    let order = numbered(orders, first.number)?;
    Some((order, first.end))
}

/// The first order to end by the wished time, and when it ends.
pub fn first_ending<L: Line<EndTime>>(board: &Board, line: &L, wished: u64) -> Option<(Order, u64)>
    ensures { InStep end_ahead (λ b. end_time) L.Line line.now board.now → result ≡ expiring wished board.now.orders }
{
    ending(&board.orders, line.first(), wished)
}
