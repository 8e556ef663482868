//! Orders that are removed.
ghost use Rattle.std.specs.Prelude.{◌≡◌};
ghost use Rattle.rules.specs.Draws.{removes, expires};
ghost use Rattle.drawing.specs.Does.{Does, Leaves};

use draws::removals;
use market::order::Order;
use market::record::{Cause, Record};
use memory::entries::Entries;
use memory::lines::BookLines;
use memory::memory::Memory;

/// The order leaves the board and the lines, at this time.
fn let_go<L: BookLines>(memory: &mut Memory<L>, order: &Order, time: u64)
    ensures { Leaves L.Bids.Line L.Offers.Line L.Ends.Line memory.old memory.new order.now time }
{
    let old = Entries::of(&memory.board, order);
    removals::remove(&mut memory.board, &mut memory.reserves, order, time);
    memory.relist(old, Entries::none());
}

/// What the tape tells of it.
fn removal(order: &Order, time: u64, cause: Cause) -> Record
    ensures { result ≡ Record.Removal time order.now.number order.now.displayed cause }
{
    Record::Removal {
        time,
        number: order.number,
        displayed: order.displayed,
        cause,
    }
}

/// The order is removed for this cause, at the time that the book has reached.
pub fn remove<L: BookLines>(memory: &mut Memory<L>, order: &Order, cause: Cause) -> Record
    ensures { Does L.Bids.Line L.Offers.Line L.Ends.Line memory.old memory.new (removes order.now cause) result }
{
    let time = memory.board.clock.time;
    let_go(memory, order, time);
    removal(order, time, cause)
}

/// The order is removed as its end time comes.
pub fn expire<L: BookLines>(memory: &mut Memory<L>, order: &Order, time: u64) -> Record
    ensures { Does L.Bids.Line L.Offers.Line L.Ends.Line memory.old memory.new (expires order.now time) result }
{
    let_go(memory, order, time);
    removal(order, time, Cause::End)
}
