//! A cancel.
ghost use Rattle.std.specs.Prelude.{◌≡◌, false, is_ok};
ghost use Rattle.market.specs.declared.call.Call.TheVariants.{Cancel};
ghost use Rattle.calls.specs.Obeys.{Obeys, plain_answer};

use admission::calls::check_cancel;
use effects::effects as on_board;
use market::call::OrderCancel;
use market::refusal::Refusal;
use memory::entries::Entries;
use memory::lines::BookLines;
use memory::memory::Memory;

/// A live order is taken back: it leaves the board and the lines.
pub fn cancel<L: BookLines>(memory: &mut Memory<L>, wanted: &OrderCancel) -> Result<(), Refusal>
    ensures obeys { Obeys L.Bids.Line L.Offers.Line L.Ends.Line memory.old memory.new (Cancel wanted.now) (plain_answer result) }
    ensures kept { is_ok result ≡ false → memory.new ≡ memory.old }
{
    let order = check_cancel(&memory.board, wanted)?;
    let old = Entries::of(&memory.board, &order);
    on_board::cancel(&mut memory.board, &mut memory.reserves, &order);
    memory.relist(old, Entries::none());
    Ok(())
}
