//! What holds of every run of calls, by the rules alone.
#![tactic(auto)]

ghost use Rattle.invariants.specs.Orderly.{StaysOrderly, QuietSettled, FillsOfTwo};
ghost use Rattle.invariants.specs.Prompt.{Prompt};
ghost use Rattle.invariants.specs.Sound.{StaysSound};
ghost use Rattle.invariants.specs.Tight.{Tight};

/// Orders, counters, times and tables are as they should be, whatever calls have come.
pub fn book_stays_sound()
    ensures { StaysSound }
{}

/// The tape comes to rest within as many draws as lots and orders stand, and four more.
pub fn tape_rests_promptly()
    ensures { Prompt }
{}

/// It may need every one of them.
pub fn all_draws_can_be_needed()
    ensures { Tight }
{}

/// Prices keep to the session's price, a trader's own orders do not meet, and every session trades.
pub fn book_stays_orderly()
    ensures { StaysOrderly }
{}

/// When the tape is quiet nothing is left to do: no prices to meet, no order to remove, no moment to reach.
pub fn quiet_is_settled()
    ensures { QuietSettled }
{}

/// Every fill is of two traders' orders that meet; in the FBS Period one of them is the incoming order.
pub fn fills_are_of_two()
    ensures { FillsOfTwo }
{}
