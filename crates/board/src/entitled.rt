//! Which orders may trade.
ghost use Rattle.std.specs.Prelude.{◌≡◌};
ghost use Rattle.rules.specs.Entitlement.{is_at, aggressively};
ghost use Rattle.board.specs.Entitlements.{entitlement_of, allowed};

use crate::board::Board;
use crate::entitlement::Entitlement;
use crate::orders::is_prior_left;
use market::order::Order;
use market::state::{Phase, Session};

/// Whether the price is the best.
fn is_best(price: i32, best: Option<i32>) -> bool
    ensures { result ≡ is_at price best }
{
    best == Some(price)
}

/// Whether an order of the aggressive side may trade in Timed.
fn is_aggressive(session: &Session, order: &Order) -> bool
    ensures { result ≡ aggressively session.now.aggressor session.now order.now }
{
    let at_price = order.price == session.price;
    at_price && session.aggressor.is_none_or(|owner| order.trader == owner)
}

impl Entitlement {
    /// What the board says, with whether prices meet and the best price of the side that is asked about.
    pub fn new(board: &Board, meets: bool, best: Option<i32>) -> Entitlement
        ensures { result ≡ entitlement_of board.now meets best }
    {
        Entitlement {
            phase: board.phase,
            session: board.session,
            priors: is_prior_left(&board.orders),
            meets,
            best,
        }
    }

    /// Whether the order may trade.
    pub fn allows(&self, order: &Order) -> bool
        ensures { result ≡ allowed self.now order.now }
    {
        let session = &self.session;
        let passive = order.side == session.passive;
        let at_price = order.price == session.price;
        match self.phase {
            Phase::Open => false,
            Phase::Timed if passive && self.priors => order.prior,
            Phase::Timed if passive => at_price && order.trader == session.owner,
            Phase::Timed => is_aggressive(session, order),
            Phase::Rolling => at_price,
            Phase::Fbs => self.meets && is_best(order.price, self.best),
        }
    }
}
