//! A session begins.
ghost use Rattle.rules.specs.Draws.{begins};
ghost use Rattle.drawing.specs.Does.{Does};

use draws::session;
use draws::start::Start;
use market::order::Order;
use market::record::Record;
use memory::entries::Entries;
use memory::lines::BookLines;
use memory::memory::Memory;

/// Prices meet: the trigger, which is re-priced, begins a session at the price of the passive order. All others keep their ranks.
pub fn begin<L: BookLines>(memory: &mut Memory<L>, trigger: &Order, passive: &Order) -> Record
    ensures { Does L.Bids.Line L.Offers.Line L.Ends.Line memory.old memory.new (begins trigger.now passive.now) result }
{
    let old = Entries::of(&memory.board, trigger);
    session::begin_session(&mut memory.board, trigger, passive);
    let started = Start::new(trigger, passive).started(trigger);
    let new = Entries::of(&memory.board, &started);
    memory.relist(old, new);
    Record::Session {
        time: memory.board.clock.time,
        price: passive.price,
        passive: passive.number,
    }
}
