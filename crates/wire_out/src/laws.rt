//! What holds of output messages.
ghost use Rattle.layout.specs.Laws.{ReadBack, OneMeaning, NothingElse};
ghost use Rattle.wire_out.specs.Laws.{Fitting};
ghost use Rattle.wire_out.specs.Reading.{output_in};
ghost use Rattle.wire_out.specs.Writing.{coded};

/// Records and replies and their bytes determine each other: what is written is read back as itself, whatever follows it; no two
/// have the same bytes; and nothing is accepted but what is written so. It does nothing: its contract is the theorem.
pub fn outputs_are_exact()
    ensures read_back { ReadBack coded Fitting output_in }
    ensures one_meaning { OneMeaning coded Fitting }
    ensures nothing_else { NothingElse coded Fitting output_in }
{}
