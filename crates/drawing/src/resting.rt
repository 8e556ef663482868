//! The tape is quiet.
ghost use Rattle.rules.specs.Draws.{rests};
ghost use Rattle.drawing.specs.Does.{Does};

use draws::phases;
use market::record::Record;
use memory::lines::BookLines;
use memory::memory::Memory;

/// Nothing is left to do by the wished time.
pub fn rest<L: BookLines>(memory: &mut Memory<L>) -> Record
    ensures { Does L.Bids.Line L.Offers.Line L.Ends.Line memory.old memory.new rests result }
{
    let time = memory.board.clock.wished;
    phases::rest(&mut memory.board);
    Record::Quiet { time }
}
