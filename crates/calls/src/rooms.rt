//! Whether the lines have room for one order more.
ghost use Rattle.std.specs.Prelude.{◌≡◌, ◌&&◌, nat_le};
ghost use Rattle.line.specs.declared.lines.LineFault.TheVariants.{Full};
ghost use Rattle.rules.specs.Base.{is_some, count};
ghost use Rattle.rules.specs.Board.{on};
ghost use Rattle.rules.specs.Refusing.{room_for, ending};
ghost use Rattle.admission.specs.Checks.{refused_if};
ghost use Rattle.memory.specs.Shown.{Whenever};

use line::lines::LineFault;
use market::order::Side;
use memory::lines::BookLines;
use memory::memory::Memory;
use queues::keeping::check_room;

/// The line of the order's side must have room.
pub(crate) fn check_side_line<L: BookLines>(memory: &Memory<L>, side: Side) -> Result<(), LineFault>
    ensures { Whenever L.Bids.Line L.Offers.Line L.Ends.Line memory.now (λ k S. result ≡ refused_if (nat_le (room_for k side) (count (on side) S.board.orders)) Full) }
{
    match side {
        Side::Bid => check_room(&memory.bids),
        Side::Offer => check_room(&memory.offers),
    }
}

/// If the order has an end time, the end line must have room.
pub(crate) fn check_end_line<L: BookLines>(
    memory: &Memory<L>,
    end: Option<u64>,
) -> Result<(), LineFault>
    ensures { Whenever L.Bids.Line L.Offers.Line L.Ends.Line memory.now (λ k S. result ≡ refused_if (is_some end && nat_le k.ends (count ending S.board.orders)) Full) }
{
    match end {
        Some(_) => check_room(&memory.ends),
        None => Ok(()),
    }
}
