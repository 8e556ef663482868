//! The summary of a side.
ghost use Rattle.std.specs.Prelude.{◌≡◌};
ghost use Rattle.rules.specs.Base.{eq_z};
ghost use Rattle.rules.specs.Summaries.{summary};
ghost use Rattle.queues.specs.Lists.{InStep};
ghost use Rattle.queues.specs.Walks.{shown_at, displayed_by};

use crate::best::best_price;
use crate::ranked::Ranked;
use crate::walking::Along;
use board::board::Board;
use board::orders::numbered;
use line::lines::Line;
use market::answer::Summary;
use market::order::Order;
use market::rank::OfOrder;

/// How many orders at the best price a summary counts.
const DEPTH: usize = 8;

/// Whether a rank has that price.
fn is_at<T: Ranked>(rank: &T, price: i32) -> bool
    ensures { result ≡ eq_z (T.Ranked.price rank.now) price }
{
    rank.price() == price
}

/// What the order of an entry displays.
fn displayed<T: OfOrder>(orders: &[Order], entry: &T) -> u32
    ensures { result ≡ displayed_by T.OfOrder.number orders.now entry.now }
{
    numbered(orders, entry.order()).map_or(0, |order| order.displayed)
}

/// The displayed total of the first orders along the line that are at the price.
fn displayed_at<T: Ranked, L: Line<T>>(orders: &[Order], line: &L, price: i32) -> u64
    ensures { result ≡ shown_at T.Ranked.price (displayed_by T.OfOrder.number orders.now) 8 price (L.Line.entries line.now) }
{
    Along::new(line)
        .take(DEPTH)
        .take_while(|rank| is_at(rank, price))
        .map(|rank| u64::from(displayed(orders, &rank)))
        .sum()
}

/// The side's best price, and the displayed total of the first eight orders there.
pub fn summarize<T: Ranked, L: Line<T>>(board: &Board, line: &L) -> Option<Summary>
    ensures { InStep T.Entry.ahead T.Listed.listing L.Line line.now board.now → result ≡ summary board.now T.Ranked.side }
{
    let price = best_price(line)?;
    let size = displayed_at(&board.orders, line, price);
    Some(Summary { price, size })
}
