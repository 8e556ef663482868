//! Phases.
ghost use Rattle.std.specs.Prelude.{◌≡◌};
ghost use Rattle.rules.specs.Board.{in_session, is_fbs};

use market::state::Phase;

// These are no methods of `Phase`, which is a type of `market`: their contracts have the words of the rules.

/// Whether a session runs.
pub fn in_session(phase: Phase) -> bool
    ensures { result ≡ in_session phase }
{
    matches!(phase, Phase::Timed | Phase::Rolling)
}

/// Whether the FBS Period runs.
pub fn in_fbs(phase: Phase) -> bool
    ensures { result ≡ is_fbs phase }
{
    matches!(phase, Phase::Fbs)
}
