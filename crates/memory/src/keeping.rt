//! Keeping the three lines in step with the live orders.
ghost use Rattle.memory.specs.Shown.{Enlisted, Relisted, Reranked};

use crate::entries::Entries;
use crate::lines::BookLines;
use crate::memory::Memory;
use queues::keeping;

impl<L: BookLines> Memory<L> {
    /// Puts in the entries of a new order.
    pub fn enlist(&mut self, new: Entries)
        ensures { Enlisted L.Bids.Line L.Offers.Line L.Ends.Line self.old self.new new }
    {
        keeping::enlist(&mut self.bids, new.bid);
        keeping::enlist(&mut self.offers, new.offer);
        keeping::enlist(&mut self.ends, new.end);
    }

    /// Puts the new entries of an order in place of its old ones.
    pub fn relist(&mut self, old: Entries, new: Entries)
        ensures { Relisted L.Bids.Line L.Offers.Line L.Ends.Line self.old self.new old new }
    {
        keeping::relist(&mut self.bids, old.bid, new.bid);
        keeping::relist(&mut self.offers, old.offer, new.offer);
        keeping::relist(&mut self.ends, old.end, new.end);
    }

    /// Fills the lines of both sides again, by the ranks on the board.
    pub fn rerank(&mut self)
        ensures { Reranked L.Bids.Line L.Offers.Line L.Ends.Line self.old self.new }
    {
        keeping::refill(&mut self.bids, &self.board);
        keeping::refill(&mut self.offers, &self.board);
    }
}
