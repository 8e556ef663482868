//! A phase ends, and the next begins.
ghost use Rattle.rules.specs.Draws.{turns};
ghost use Rattle.drawing.specs.Does.{Does};

use draws::phases;
use market::record::Record;
use market::state::Phase;
use memory::lines::BookLines;
use memory::memory::Memory;

/// The phase ends at this time. Only in the FBS Period do privileges count in an order's rank, so that both sides are ranked anew
/// as it begins and as it ends.
pub fn turn<L: BookLines>(memory: &mut Memory<L>, time: u64) -> Record
    ensures { Does L.Bids.Line L.Offers.Line L.Ends.Line memory.old memory.new (turns time) result }
{
    let ended = memory.board.phase;
    phases::turn(&mut memory.board, time);
    match ended {
        // Open ends as a session begins, and not by itself.
        Phase::Open => Record::Open { time },
        Phase::Timed => Record::Rolling { time },
        Phase::Rolling => {
            memory.rerank();
            Record::Fbs { time }
        }
        Phase::Fbs => {
            memory.rerank();
            Record::Open { time }
        }
    }
}
