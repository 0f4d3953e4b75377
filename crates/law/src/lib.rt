// The law of days, for every kind of order, every ranking and any capacity.
#![tactic(auto)]

ghost use Rattle.law.specs.Outcomes.{OneOutcome};
ghost use Rattle.rules.specs.Promises.{EveryLawfulDayKeeps};

use orders::order::Order;

// After each call of every lawful day no resting pair can trade, each fill is in turn, and what was entered was
// filled, was cancelled or rests. The contract is the theorem.
pub fn every_lawful_day_keeps<O: Order>()
    ensures { EveryLawfulDayKeeps O.kind }
{}

// Where orders at different places have different folios, any two sweeps of them at one price make the same fills
// and leave the same orders. The contract is the theorem.
pub fn sweep_has_one_outcome<O: Order>()
    ensures { OneOutcome O.kind }
{}
