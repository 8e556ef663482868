//! How a session starts.
ghost use Rattle.std.specs.Prelude.{◌≡◌, ◌&&◌, if◌then◌else◌};
ghost use Rattle.rules.specs.Base.{eq_z};
ghost use Rattle.rules.specs.Board.{on, numbered};
ghost use Rattle.rules.specs.Draws.{started};

use market::order::{Order, Side};

/// What changes orders as a session starts.
#[derive(Clone, Copy)]
pub struct Start {
    /// The number of the trigger, which is re-priced.
    pub trigger: u32,
    /// The passive side.
    pub passive: Side,
    /// The session's price.
    pub price: i32,
}

impl Start {
    /// The trigger met the passive order, whose side and price the session has.
    pub fn new(trigger: &Order, passive: &Order) -> Start
        ensures trigger { result.trigger ≡ trigger.now.number }
        ensures side { result.passive ≡ passive.now.side }
        ensures price { result.price ≡ passive.now.price }
    {
        Start {
            trigger: trigger.number,
            passive: passive.side,
            price: passive.price,
        }
    }

    /// An order's price as the session starts: the trigger is re-priced.
    fn price_of(self, order: &Order) -> i32
        ensures { result ≡ (if numbered self.trigger order.now then self.price else order.now.price) }
    {
        if order.number == self.trigger {
            self.price
        } else {
            order.price
        }
    }

    /// An order is prior if it stands on the passive side at the session's price as that starts.
    fn is_prior(self, order: &Order) -> bool
        ensures { result ≡ (on self.passive order.now && eq_z order.now.price self.price) }
    {
        self.passive == order.side && order.price == self.price
    }

    /// The order as the session starts: it has no fill in the session yet.
    pub fn started(self, order: &Order) -> Order
        ensures { result ≡ started self.trigger self.passive self.price order.now }
    {
        Order {
            price: self.price_of(order),
            first: None,
            prior: self.is_prior(order),
            ..*order
        }
    }
}
