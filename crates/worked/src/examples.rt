// Worked examples of the rules: what each comes to is proved.
ghost use Rattle.worked.specs.Examples.{WorkedExamples};

// Eight examples, from the midpoint of two quotes to a folio that was refused. The contract is the theorem.
pub fn worked_examples()
    ensures { WorkedExamples }
{}
