//! Runs recorded from the model in another language, which the rules answer alike.
#![tactic(auto)]

ghost use Rattle.recorded.specs.Runs.{Recorded};

/// To every call of the recorded runs the rules answer what the model answered, with the same summaries after it.
pub fn rules_agree_with_the_model()
    ensures { Recorded }
{}
