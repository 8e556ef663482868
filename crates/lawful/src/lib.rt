//! The three laws together, of the answers that a book hands out to a run of calls, whatever calls came before.
#![tactic(auto)]

ghost use Rattle.lawful.specs.Lawful.{EveryRunIsLawful};

/// The answers that the rules define are fair, hide reserves, and come to rest promptly, in every run and every part of it.
pub fn every_run_is_lawful()
    ensures { EveryRunIsLawful }
{}
