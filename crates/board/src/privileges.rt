//! The privileges of the FBS Period.
ghost use Rattle.std.specs.Prelude.{◌≡◌};
ghost use Rattle.market.specs.declared.state.Privilege.{Privilege};
ghost use Rattle.rules.specs.Board.{lookup, empty};
ghost use Rattle.rules.specs.Privileges.{taken, freed, lost, adjust, granted};
ghost use Rattle.board.specs.Carriers.{is_by};

use crate::earning::earned_by;
use crate::seat::Seat;
use crate::seats::Seats;
use market::order::Order;
use market::state::{Carrier, Completion, Priority, Privilege};
use std::array;

/// What every trader has on each side.
#[derive(Clone, Copy)]
pub struct Privileges {
    pub slots: Seats<Privilege>,
}

// These are no methods of `Privilege`, which is a type of `market`: their contracts have the words of the rules.

/// Whether the order with that number carries the privilege.
pub(crate) fn is_carried_by(privilege: &Privilege, number: u32) -> bool
    ensures { result ≡ is_by number privilege.now.carrier }
{
    matches!(privilege.carrier, Carrier::Order(carrier) if carrier == number)
}

/// The privilege, carried by this order from now on if no order has carried it.
fn taken_by(privilege: Privilege, number: u32) -> Privilege
    ensures { result ≡ taken number privilege }
{
    match privilege.carrier {
        Carrier::Free => Privilege {
            carrier: Carrier::Order(number),
            ..privilege
        },
        _ => privilege,
    }
}

/// The privilege after this order was cancelled or removed: a Priority 1 that it carried may be carried again.
fn freed_from(privilege: Privilege, number: u32) -> Privilege
    ensures { result ≡ freed number privilege }
{
    if !is_carried_by(&privilege, number) {
        return privilege;
    }
    let carrier = match privilege.priority {
        Priority::First => Carrier::Free,
        Priority::Second => Carrier::Gone,
    };
    Privilege {
        carrier,
        ..privilege
    }
}

/// The privilege after this order was filled whole or re-priced better than the session's price.
fn lost_by(privilege: Privilege, number: u32) -> Privilege
    ensures { result ≡ lost number privilege }
{
    if !is_carried_by(&privilege, number) {
        return privilege;
    }
    Privilege {
        carrier: Carrier::Gone,
        ..privilege
    }
}

impl Privileges {
    /// Nobody has a privilege.
    pub fn new() -> Privileges
        ensures { result.slots ≡ empty }
    {
        Privileges {
            slots: Seats::new(),
        }
    }

    /// What the trader has on the side.
    pub fn of(&self, seat: Seat) -> Option<Privilege>
        ensures { result ≡ lookup self.now.slots seat.trader seat.side }
    {
        self.slots.at(seat)
    }

    /// What the trader has on the side, if he has anything, is changed.
    fn adjust<F: FnOnce(Privilege) -> Privilege>(&mut self, seat: Seat, change: F)
        requires { F.IsAlwaysCallable change }
        ensures { (h : Privilege → Privilege) → ((p q : Privilege) → F.post change p q → q ≡ h p) → self.new.slots ≡ adjust h seat.trader seat.side self.old.slots }
    {
        if let Some(privilege) = self.of(seat) {
            self.slots.put(seat, change(privilege));
        }
    }

    /// The order takes up what its trader has on the side, if no order has carried that.
    pub fn take(&mut self, seat: Seat, number: u32)
        ensures { self.new.slots ≡ adjust (taken number) seat.trader seat.side self.old.slots }
    {
        self.adjust(seat, |privilege| taken_by(privilege, number));
    }

    /// The order was cancelled or removed, and carries nothing any more.
    pub fn free(&mut self, seat: Seat, number: u32)
        ensures { self.new.slots ≡ adjust (freed number) seat.trader seat.side self.old.slots }
    {
        self.adjust(seat, |privilege| freed_from(privilege, number));
    }

    /// The order was filled whole or re-priced better than the session's price, which ends what it carries.
    pub fn lose(&mut self, seat: Seat, number: u32)
        ensures { self.new.slots ≡ adjust (lost number) seat.trader seat.side self.old.slots }
    {
        self.adjust(seat, |privilege| lost_by(privilege, number));
    }

    /// All privileges end.
    pub fn clear(&mut self)
        ensures { self.new.slots ≡ empty }
    {
        self.slots = Seats::new();
    }

    /// Settles what every trader has earned in the session.
    pub fn grant(&mut self, orders: &[Order], completions: &Seats<Completion>)
        ensures { self.new.slots ≡ granted orders.now completions.now }
    {
        let earned = |number| earned_by(orders, completions, Seat::numbered(number));
        self.slots = Seats::filled(array::from_fn(earned));
    }
}
