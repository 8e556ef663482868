//! Keeping a line in step with the live orders.
ghost use Rattle.std.specs.Prelude.{◌≡◌, ℕ, List, length};
ghost use Rattle.market.specs.declared.order.Order.{Order};
ghost use Rattle.rules.specs.Base.{count};
ghost use Rattle.rules.specs.Board.{Board as Rules};
ghost use Rattle.rules.specs.Rising.{Ascends};
ghost use Rattle.queues.specs.Lists.{Lists};
ghost use Rattle.queues.specs.Changes.{added, taken, room_answer, Enlists, Unlists, Relists, Refills};

use crate::listed::Listed;
use board::board::Board;
use line::entry::Entry;
use line::lines::{Line, LineFault};

/// Puts an entry in, if there is one.
fn put_entry<T: Entry, L: Line<T>>(line: &mut L, new: Option<T>)
    ensures entries { L.Line.entries line.new ≡ added T.Entry.ahead (L.Line.room line.old) new (L.Line.entries line.old) }
    ensures room { L.Line.room line.new ≡ L.Line.room line.old }
{
    if let Some(entry) = new {
        // An entry that the line refuses is not in it: `added` tells that, too.
        let _ = line.put(entry);
    }
}

/// Takes an entry out, if there is one.
fn take_entry<T: Entry, L: Line<T>>(line: &mut L, old: Option<T>)
    ensures entries { L.Line.entries line.new ≡ taken T.Entry.ahead old (L.Line.entries line.old) }
    ensures room { L.Line.room line.new ≡ L.Line.room line.old }
{
    if let Some(entry) = old {
        // An entry that the line does not hold is not in it afterwards: `taken` tells that, too.
        let _ = line.take(entry);
    }
}

/// Lists a new order: puts in its entry, if it has one.
pub fn enlist<T: Listed, L: Line<T>>(line: &mut L, new: Option<T>)
    ensures { Enlists T.Entry.ahead T.Listed.mine T.Listed.listing L.Line line.old line.new new }
{
    put_entry(line, new);
}

/// Lists an order no more: takes out its entry, if it has one.
pub fn unlist<T: Listed, L: Line<T>>(line: &mut L, old: Option<T>)
    ensures { Unlists T.Entry.ahead T.Listed.mine T.Listed.listing L.Line line.old line.new old }
{
    take_entry(line, old);
}

/// Lists an order as it is now: puts its new entry in place of its old one; none if it leaves.
pub fn relist<T: Listed, L: Line<T>>(line: &mut L, old: Option<T>, new: Option<T>)
    ensures { Relists T.Entry.ahead T.Listed.mine T.Listed.listing L.Line line.old line.new old new }
{
    unlist(line, old);
    enlist(line, new);
}

/// Lists the orders of the board, whatever the line held: empties it, and puts in the entries of all.
pub fn refill<T: Listed, L: Line<T>>(line: &mut L, board: &Board)
    ensures { Refills T.Entry.ahead T.Listed.mine T.Listed.listing L.Line line.old line.new board.now }
{
    line.clear();
    for order in board.orders.iter() {
        put_entry(line, T::of(board, order));
    }
}

/// Refused if the entries are as many as the room.
fn room_left(count: usize, room: usize) -> Result<(), LineFault>
    ensures { result ≡ room_answer room count }
{
    if count < room {
        Ok(())
    } else {
        Err(LineFault::Full)
    }
}

/// Refused if the line holds as many entries as its room.
pub fn check_room<T: Listed, L: Line<T>>(line: &L) -> Result<(), LineFault>
    ensures answer { result ≡ room_answer (L.Line.room line.now) (length (L.Line.entries line.now)) }
    ensures listed { (b : Rules) (os : List Order) (m : ℕ) → Ascends 1 m os → Lists T.Entry.ahead L.Line line.now os (T.Listed.listing b) → result ≡ room_answer (L.Line.room line.now) (count T.Listed.mine os) }
{
    room_left(line.count(), line.room())
}
