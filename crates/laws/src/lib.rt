//! The laws of the book, over every run of calls from an opening.
#![tactic(auto)]

ghost use Rattle.laws.specs.Fair.{Fair};
ghost use Rattle.laws.specs.Hidden.{Hidden, HiddenFromAll};
ghost use Rattle.laws.specs.Differing.{Differing};

/// Each fill is of the two orders that are entitled and ahead of every other entitled one; the tape rests only while a side has none.
pub fn fills_are_fair() -> bool
    ensures { Fair }
{
    true
}

/// What the others learn of a run does not depend on the reserves that a trader writes, while none of them runs out.
pub fn reserves_stay_hidden() -> bool
    ensures { Hidden }
{
    true
}

/// Nor do the trader's own answers, and nothing on the board.
pub fn reserves_show_nowhere() -> bool
    ensures { HiddenFromAll }
{
    true
}

/// There are such runs, with restocks; and a reserve that runs out is told.
pub fn reserves_can_differ() -> bool
    ensures { Differing }
{
    true
}
