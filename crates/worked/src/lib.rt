// Worked days and examples: what the rules ask for can be met.
#![tactic(auto)]

ghost use Rattle.worked.specs.LawfulDay.{ALawfulDay};

pub mod examples;

// A day with fills, refusals, a cancel and a cross is lawful, and leaves one order. The contract is the theorem.
pub fn a_lawful_day()
    ensures { ALawfulDay }
{}
