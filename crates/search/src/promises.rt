// What is promised of the search. Each function has one statement of specs/ as its contract, and does nothing.
// `using` names the lemma that proves it; a lemma that ends in a pair is cited by an answer in proofs/promises.
ghost use Rattle.search.specs.Promises.{SearchRight, NeverWrong, EndedStays};
ghost use Rattle.search.specs.MemoryPromises.{FindsTheFirst, SaysNoWrong, SpellsTheRule};

// Begun on examples in memory and advanced often enough, the search ends, with the first of all rules that do them, or with none where there is none.
pub fn the_first_rule_is_found()
    ensures { FindsTheFirst }
{}

// And after however many pieces it has ended, what it says is right.
pub fn nothing_wrong_is_said()
    ensures { SaysNoWrong }
{}

// The rule that was found is spelled as it is.
pub fn the_rule_is_spelled()
    ensures { SpellsTheRule }
{}

// Over any automaton: begun and advanced often enough, the search ends right.
pub fn the_search_ends_right()
    ensures { SearchRight }
{}

// And after however many steps it has ended, what it says is right.
pub fn the_search_is_never_wrong()
    ensures { NeverWrong }
{}

// Once it has ended it stays as it is.
#[tactic(auto, using(crate::proofs::SearchRight::ended_stays))]
pub fn an_ended_search_stays()
    ensures { EndedStays }
{}
