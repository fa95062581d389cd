// What is promised of all rules there are. Each function has one statement of specs/Promises.antt as its contract, and does nothing.
// `using` names the lemma that proves it; a lemma that ends in a pair is cited by an answer in proofs/promises.
ghost use Rattle.rules.specs.Promises.{FirstOne, FirstThere, FirstOrNone, SpelledOnce, SpellingRead, ReadIsSpelling, PartsMake, LessCosts, NoIdle, MoreExamples, NoDoubt, PlacesWithin};

// There is one first rule at most.
#[tactic(auto, using(crate::proofs::RuleOrder::first_one))]
pub fn one_first_rule()
    ensures { FirstOne }
{}

// And one if there is any.
pub fn a_first_rule_if_any()
    ensures { FirstThere }
{}

// For any test there is a first rule, or there is none.
#[tactic(auto, using(crate::proofs::AllRules::first_or_none))]
pub fn first_or_none()
    ensures { FirstOrNone }
{}

// No two rules are spelled alike.
#[tactic(auto, using(crate::proofs::SpellingPrefixFree::spelled_once_lem))]
pub fn spelled_once()
    ensures { SpelledOnce }
{}

// A rule is read back from its spelling.
#[tactic(auto, using(crate::proofs::SpellingIsRead::spelling_read))]
pub fn a_spelling_is_read_back()
    ensures { SpellingRead }
{}

// And bytes from which a rule is read are its spelling, and it is a rule there is.
#[tactic(auto, using(crate::proofs::ReadIsSpelling::read_is_spelling))]
pub fn what_is_read_is_spelled()
    ensures { ReadIsSpelling }
{}

// The parts of a rule make what is wanted one after the other.
pub fn parts_make_parts()
    ensures { PartsMake }
{}

// A rule costs more than without one of its parts, and if that part makes no bytes, it makes the same.
pub fn one_part_less_costs_less()
    ensures { LessCosts }
{}

// So the best rule has no part that makes no bytes in every example.
#[tactic(auto, using(crate::proofs::IdleParts::no_idle))]
pub fn no_idle_part()
    ensures { NoIdle }
{}

// One example more never makes the best rule cheaper, and if the best does it already, it stays the best.
#[tactic(auto, using(crate::proofs::MoreExamples::more_examples_lem))]
pub fn more_examples()
    ensures { MoreExamples }
{}

// Where there is no doubt, all rules that do the examples at little more cost make the same of the text.
#[tactic(auto, using(crate::proofs::NoDoubt::no_doubt))]
pub fn no_doubt_means_the_same()
    ensures { NoDoubt }
{}

// Places lie within the text.
#[tactic(auto, using(crate::proofs::PlacesWithin::places_within))]
pub fn places_lie_within()
    ensures { PlacesWithin }
{}
