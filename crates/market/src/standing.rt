//! Where an order stands among those at its price.
ghost use Rattle.std.specs.Prelude.{◌≡◌};
ghost use Rattle.market.specs.declared.standing.Standing.TheVariants.{Plain};

use std::cmp::Reverse;

/// An order's class, and its place within the class: the earned number in First and Second, else its stamp. Lower classes go first;
/// in a class the lower place, but in Second the higher. Only the FBS Period gives another class than the last.
#[derive(Clone, Copy, PartialEq, Eq, PartialOrd, Ord)]
pub enum Standing {
    /// Of the Last Buyer or the Last Seller, the traders of the session's last fill.
    Last(u64),
    /// It carries a Priority 1.
    First(u64),
    /// It carries a Priority 2.
    Second(Reverse<u64>),
    Plain(u64),
}

impl Default for Standing {
    ghost is_default = { λ s. s ≡ Plain 0 };

    fn default() -> Standing {
        Standing::Plain(0)
    }
}
