//! A book is opened.
ghost use Rattle.rules.specs.Calls.{opened};
ghost use Rattle.memory.specs.Shown.{Shows};
ghost use Rattle.calls.specs.Openings.{opening_with};

use arrayvec::ArrayVec;
use board::board::Board;
use line::lines::Line;
use market::settings::Settings;
use memory::lines::BookLines;
use memory::memory::Memory;

/// A quiet book at time 0 with these settings and lines, which are emptied.
pub fn open<L: BookLines>(
    settings: Settings,
    mut bids: L::Bids,
    mut offers: L::Offers,
    mut ends: L::Ends,
) -> Memory<L>
    ensures { Shows L.Bids.Line L.Offers.Line L.Ends.Line result (opening_with L.Bids.Line L.Offers.Line L.Ends.Line settings bids offers ends) opened }
{
    bids.clear();
    offers.clear();
    ends.clear();
    Memory {
        settings,
        board: Board::new(),
        reserves: ArrayVec::new(),
        bids,
        offers,
        ends,
    }
}
