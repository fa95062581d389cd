// Examples worked by hand. Each function has a table as its contract, and does nothing.
ghost use Rattle.rules.specs.Refusals.{WorkedRefusals};
ghost use Rattle.rules.specs.Worked.{WorkedTable};

// Examples with rules that do them, what those cost, and what they make of a new text.
#[tactic(auto, using(crate::proofs::WorkedTable::worked_table_lem))]
pub fn worked_table()
    ensures { WorkedTable }
{}

// Bytes that spell no rule, and what is told of them.
#[tactic(auto, using(crate::proofs::RefusalsTold::refusals_told))]
pub fn worked_refusals()
    ensures { WorkedRefusals }
{}
