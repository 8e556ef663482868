//! A tick.
ghost use Rattle.std.specs.Prelude.{◌≡◌, false, is_ok};
ghost use Rattle.market.specs.declared.call.Call.TheVariants.{Tick};
ghost use Rattle.calls.specs.Obeys.{Obeys, plain_answer};

use admission::calls::check_tick;
use effects::effects as on_board;
use market::refusal::Refusal;
use memory::lines::BookLines;
use memory::memory::Memory;

/// The book is to reach this time; what comes by then is drawn.
pub fn tick<L: BookLines>(memory: &mut Memory<L>, time: u64) -> Result<(), Refusal>
    ensures obeys { Obeys L.Bids.Line L.Offers.Line L.Ends.Line memory.old memory.new (Tick time) (plain_answer result) }
    ensures kept { is_ok result ≡ false → memory.new ≡ memory.old }
{
    check_tick(&memory.board, time)?;
    on_board::tick(&mut memory.board, time);
    Ok(())
}
