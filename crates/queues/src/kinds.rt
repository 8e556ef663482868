//! The entries of the three lines of a book: ranks of bids and of offers, and end times.
ghost use Rattle.std.specs.Prelude.{◌≡◌, Bool};
ghost use Rattle.std.proofs.Common.{rules};
ghost use Rattle.market.specs.Ranks.{sooner};
ghost use Rattle.rules.specs.Board.{on};
ghost use Rattle.rules.specs.Refusing.{ending};
ghost use Rattle.rules.specs.Standings;
ghost use Rattle.board.specs.EndTimes.{end_time};
ghost use Rattle.queues.specs.Entries.{side_entry};
ghost use Rattle.queues.specs.Sided.{rank-cheaper};

use crate::listed::Listed;
use crate::ranked::Ranked;
use board::board::Board;
use board::standing::{end_time, rank_of};
use market::order::Order;
use market::price::SidePrice;
use market::rank::{EndTime, Rank};

impl<P: SidePrice> Listed for Rank<P> {
    ghost mine = { on P.SIDE };

    ghost listing = { side_entry P.SIDE P.of };

    ghost has = { Prim.search rules };

    ghost named = { Prim.search rules };

    fn of(board: &Board, order: &Order) -> Option<Rank<P>> {
        if order.side == P::SIDE {
            Some(rank_of(board, order))
        } else {
            None
        }
    }
}

impl Listed for EndTime {
    ghost mine = { ending };

    ghost listing = { λ b. end_time };

    ghost has = { Prim.search rules };

    ghost named = { Prim.search rules };

    fn of(_board: &Board, order: &Order) -> Option<EndTime> {
        end_time(order)
    }
}

impl<P: SidePrice> Ranked for Rank<P> {
    ghost side = { P.SIDE };

    ghost price = { λ x. P.ticks x.price };

    ghost sided = { Prim.search rules };

    ghost priced = { Prim.search (rules, P.kept) };

    ghost agrees = { unfold Standings.ahead in unfold sooner in Prim.search (rules, P.kept) };

    ghost cheaper = { rank-cheaper P.SIDE P.ticks };

    fn price(&self) -> i32 {
        self.price.ticks()
    }
}
