//! Finding live orders.
ghost use Rattle.std.specs.Prelude.{◌≡◌};
ghost use Rattle.rules.specs.Board.{ordered};
ghost use Rattle.rules.specs.Entitlement.{prior_left};
ghost use Rattle.rules.specs.Refusing.{owned};
ghost use Rattle.board.specs.Positions.{position_of};

use crate::board::Board;
use market::order::Order;

/// The live order with that number.
pub fn numbered(orders: &[Order], number: u32) -> Option<Order>
    ensures { result ≡ ordered number orders.now }
{
    orders.iter().find(|order| order.number == number).copied()
}

/// Where in the table the live order with that number stands.
pub fn position(orders: &[Order], number: u32) -> Option<usize>
    ensures { result ≡ position_of number orders.now }
{
    orders.iter().position(|order| order.number == number)
}

/// Whether a prior order is left.
pub fn is_prior_left(orders: &[Order]) -> bool
    ensures { result ≡ prior_left orders.now }
{
    orders.iter().any(|order| order.prior)
}

impl Board {
    /// The trader's live order with that number.
    pub fn owned_by(&self, trader: u8, number: u32) -> Option<Order>
        ensures { result ≡ owned self.now trader number }
    {
        self.orders
            .iter()
            .find(|order| order.number == number && order.trader == trader)
            .copied()
    }
}
