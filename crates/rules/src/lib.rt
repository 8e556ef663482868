//! The rules of the book, as definitions in specs/, with worked examples.
#![tactic(auto)]

ghost use Rattle.rules.specs.Examples.{Examples};

/// The worked examples hold of the rules.
pub fn examples_hold() -> bool
    ensures { Examples }
{
    true
}
