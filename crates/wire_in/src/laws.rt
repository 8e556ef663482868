//! What holds of call messages.
ghost use Rattle.layout.specs.Laws.{ReadBack, OneMeaning, NothingElse};
ghost use Rattle.wire_in.specs.Laws.{Fitting};
ghost use Rattle.wire_in.specs.Reading.{call_in};
ghost use Rattle.wire_in.specs.Writing.{coded};

/// Calls and their bytes determine each other: what is written is read back as itself, whatever follows it; no two calls have the
/// same bytes; and nothing is accepted but what is written so. It does nothing: its contract is the theorem.
pub fn calls_are_exact()
    ensures read_back { ReadBack coded Fitting call_in }
    ensures one_meaning { OneMeaning coded Fitting }
    ensures nothing_else { NothingElse coded Fitting call_in }
{}
