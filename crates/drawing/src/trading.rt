//! A pair is filled.
ghost use Rattle.rules.specs.Draws.{fills};
ghost use Rattle.drawing.specs.Does.{Does};

use draws::fills::fill;
use market::order::Order;
use market::record::Record;
use memory::entries::Entries;
use memory::lines::BookLines;
use memory::memory::Memory;

/// The bid and the offer trade; each is ranked anew, or leaves.
pub fn trade<L: BookLines>(memory: &mut Memory<L>, bid: &Order, offer: &Order) -> Record
    ensures { Does L.Bids.Line L.Offers.Line L.Ends.Line memory.old memory.new (fills bid.now offer.now) result }
{
    let time = memory.board.clock.time;
    let bid_before = Entries::of(&memory.board, bid);
    let offer_before = Entries::of(&memory.board, offer);
    let filled = fill(&mut memory.board, &mut memory.reserves, bid, offer);
    let bid_after = Entries::after(&memory.board, filled.bid);
    let offer_after = Entries::after(&memory.board, filled.offer);
    memory.relist(bid_before, bid_after);
    memory.relist(offer_before, offer_after);
    Record::Fill {
        time,
        fill: filled.fill,
    }
}
