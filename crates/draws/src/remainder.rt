//! What a fill leaves of an order. Reserves are read here alone.
ghost use Rattle.std.specs.Prelude.{◌≡◌, ◌+◌, ◌^◌, ◌<◌};
ghost use Rattle.rules.specs.Fills.{remainder, stamp_after, left as order_after};
ghost use Rattle.draws.specs.Remainders.{meant, reserve_after};

use crate::edits::restocked;
use market::order::Order;

/// What a fill leaves of an order.
#[derive(Clone, Copy)]
pub(crate) enum Remainder {
    /// Some of its displayed size.
    Stays,
    /// Nothing displayed, but its reserve brings so much.
    Restocks(u32),
    /// Nothing: it was filled whole.
    Leaves,
}

impl Remainder {
    /// What is left of an order with this displayed size after the fill, this shown size and this reserve: when nothing is
    /// displayed any more, the smaller of shown size and reserve is drawn.
    pub(crate) fn of(left: u32, shown: u32, reserve: u32) -> Remainder
        ensures { meant result ≡ remainder left shown reserve }
    {
        if left > 0 {
            return Remainder::Stays;
        }
        match shown.min(reserve) {
            0 => Remainder::Leaves,
            drawn => Remainder::Restocks(drawn),
        }
    }

    /// The order after it: as it is, restocked under this stamp, or gone.
    pub(crate) fn order_after(self, stamp: u64, order: &Order) -> Option<Order>
        ensures { result ≡ order_after (meant self) stamp order.now }
    {
        match self {
            Remainder::Stays => Some(*order),
            Remainder::Restocks(drawn) => Some(restocked(drawn, stamp, order)),
            Remainder::Leaves => None,
        }
    }

    /// The next stamp after it: a restock takes one.
    pub(crate) fn stamp_after(self, stamp: u64) -> u64
        ensures { stamp + 1 < 2 ^ 64 → result ≡ stamp_after (meant self) stamp }
    {
        match self {
            Remainder::Restocks(_) => stamp.saturating_add(1),
            Remainder::Stays | Remainder::Leaves => stamp,
        }
    }

    /// The order's reserve after it, if the order is still live.
    pub(crate) fn reserve_after(self, reserve: u32) -> Option<u32>
        ensures { result ≡ reserve_after (meant self) reserve }
    {
        match self {
            Remainder::Stays => Some(reserve),
            Remainder::Restocks(drawn) => Some(reserve.saturating_sub(drawn)),
            Remainder::Leaves => None,
        }
    }
}
