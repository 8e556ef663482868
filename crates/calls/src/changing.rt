//! A change.
ghost use Rattle.std.specs.Prelude.{◌≡◌, false, is_ok};
ghost use Rattle.market.specs.declared.call.Call.TheVariants.{Change};
ghost use Rattle.calls.specs.Obeys.{Obeys, plain_answer};

use admission::calls::check_change;
use effects::effects as on_board;
use market::call::OrderChange;
use market::refusal::Refusal;
use memory::entries::Entries;
use memory::lines::BookLines;
use memory::memory::Memory;

/// Price and sizes of a live order are written anew, and it is ranked by them.
pub fn change<L: BookLines>(memory: &mut Memory<L>, wanted: &OrderChange) -> Result<(), Refusal>
    ensures obeys { Obeys L.Bids.Line L.Offers.Line L.Ends.Line memory.old memory.new (Change wanted.now) (plain_answer result) }
    ensures kept { is_ok result ≡ false → memory.new ≡ memory.old }
{
    let order = check_change(&memory.board, &memory.settings, wanted)?;
    let old = Entries::of(&memory.board, &order);
    let after = on_board::change(&mut memory.board, &mut memory.reserves, wanted, &order);
    let new = Entries::of(&memory.board, &after);
    memory.relist(old, new);
    Ok(())
}
