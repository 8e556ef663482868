//! Which orders were filled whole in the session.
ghost use Rattle.std.specs.Prelude.{◌≡◌};
ghost use Rattle.rules.specs.Privileges.{completed};

use crate::seat::Seat;
use crate::seats::Seats;
use market::state::Completion;

// This is no method of `Seats`, which holds anything, and no struct is around the table: the rules' board has the table itself.

/// An order of the trader's was filled whole: only his first on a side counts.
pub fn complete(completions: &mut Seats<Completion>, seat: Seat, completion: Completion)
    ensures { completions.new ≡ completed seat.trader seat.side completion completions.old }
{
    if completions.at(seat).is_none() {
        completions.put(seat, completion);
    }
}
