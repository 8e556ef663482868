//! An entry.
ghost use Rattle.std.specs.Prelude.{◌≡◌, false, is_ok};
ghost use Rattle.market.specs.declared.call.Call.TheVariants.{Entry};
ghost use Rattle.calls.specs.Obeys.{Obeys, entry_answer};

use crate::rooms::{check_end_line, check_side_line};
use admission::calls::check_entry;
use effects::effects as on_board;
use market::call::OrderEntry;
use market::refusal::Refusal;
use memory::entries::Entries;
use memory::lines::BookLines;
use memory::memory::Memory;

/// A new order comes to the board and the lines; its number is answered. The lines are asked last: the board's own tests go first.
pub fn enter<L: BookLines>(memory: &mut Memory<L>, wanted: &OrderEntry) -> Result<u32, Refusal>
    ensures obeys { Obeys L.Bids.Line L.Offers.Line L.Ends.Line memory.old memory.new (Entry wanted.now) (entry_answer result) }
    ensures kept { is_ok result ≡ false → memory.new ≡ memory.old }
{
    // `false`: whether a line is full is asked afterwards, of the lines themselves.
    check_entry(&memory.board, &memory.settings, wanted, false)?;
    check_side_line(memory, wanted.side)?;
    check_end_line(memory, wanted.end)?;
    let order = on_board::enter(&mut memory.board, &mut memory.reserves, wanted);
    let new = Entries::of(&memory.board, &order);
    memory.enlist(new);
    Ok(order.number)
}
