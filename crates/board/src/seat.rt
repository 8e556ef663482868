//! A trader on a side.
ghost use Rattle.std.specs.Prelude.{◌≡◌};
ghost use Rattle.rules.specs.Board.{seat, other, of_trader};
ghost use Rattle.board.specs.Seats.{trader_at, side_at};

use crate::prices::other_side;
use market::order::{Order, Side};

/// A trader on one side of the market: what he has earned there is his, and his next order there may carry it.
#[derive(Clone, Copy)]
pub struct Seat {
    pub trader: u8,
    pub side: Side,
}

/// Where the order's trader stands with it.
impl From<&Order> for Seat {
    ghost from_gives = { λ order seat. (seat.trader ≡ order.now.trader) × (seat.side ≡ order.now.side) };

    fn from(order: &Order) -> Seat {
        Seat {
            trader: order.trader,
            side: order.side,
        }
    }
}

impl Seat {
    /// The same trader on the other side.
    pub fn across(self) -> Seat
        ensures trader { result.trader ≡ self.trader }
        ensures side { result.side ≡ other self.side }
    {
        Seat {
            trader: self.trader,
            side: other_side(self.side),
        }
    }

    /// Whether the order is the trader's, and on the side.
    pub fn owns(self, order: &Order) -> bool
        ensures { result ≡ of_trader self.trader self.side order.now }
    {
        order.trader == self.trader && self.side == order.side
    }

    /// The number of the seat, two for each trader; of a trader past the last, past the last seat.
    pub(crate) fn number(self) -> usize
        ensures { result ≡ seat self.trader self.side }
    {
        match self.side {
            Side::Bid => 2 * self.trader as usize,
            Side::Offer => 2 * self.trader as usize + 1,
        }
    }

    /// The seat with that number, if it has one.
    pub(crate) fn numbered(number: usize) -> Seat
        ensures trader { result.trader ≡ trader_at number }
        ensures side { result.side ≡ side_at number }
    {
        let side = if number % 2 == 0 {
            Side::Bid
        } else {
            Side::Offer
        };
        Seat {
            trader: (number / 2).min(128) as u8,
            side,
        }
    }
}
