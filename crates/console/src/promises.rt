// What is promised of rules as text. Each function has a promise as its contract, and does nothing.
ghost use Rattle.console.specs.Promises.{ReadsBack, ReadsRules, FailsWithin};

// Of what is printed of a rule the rule is read back.
#[tactic(auto, using(crate::proofs::ReadsBack::reads_back))]
pub fn reading_gives_the_rule_back()
    ensures { ReadsBack }
{}

// What is read of any text is a rule there is.
#[tactic(auto, using(crate::proofs::ReadsRules::reads_rules))]
pub fn what_is_read_is_a_rule()
    ensures { ReadsRules }
{}

// Where a text is no rule is in it, or at its end.
#[tactic(auto, using(crate::proofs::ReadsRules::fails_within))]
pub fn a_text_fails_within_it()
    ensures { FailsWithin }
{}
