//! A side at a glance.
ghost use Rattle.std.specs.Prelude.{◌≡◌};
ghost use Rattle.rules.specs.Summaries.{summary as summary_of};
ghost use Rattle.memory.specs.Shown.{Whenever};

use market::answer::Summary;
use market::order::Side;
use memory::lines::BookLines;
use memory::memory::Memory;
use queues::glance::summarize;

/// The side's best price, and the displayed total of the first eight orders there; none if the side is empty.
pub fn summary<L: BookLines>(memory: &Memory<L>, side: Side) -> Option<Summary>
    ensures { Whenever L.Bids.Line L.Offers.Line L.Ends.Line memory.now (λ k S. result ≡ summary_of S.board side) }
{
    match side {
        Side::Bid => summarize(&memory.board, &memory.bids),
        Side::Offer => summarize(&memory.board, &memory.offers),
    }
}
