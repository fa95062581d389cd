// What is promised of rows, candidates and the guide. Each function has one statement of specs/Promises.antt as its contract, and does nothing.
ghost use Rattle.candidates.specs.Promises.{PlacesFew, RowsGood, RowsApart, DoesLeads, CandidatesValid, CandidatesOrdered, Exchange, ProblemLaid, GuideLower};

// No more places are tried than the table has rows.
#[tactic(auto, using(crate::proofs::PromisesKept::places_few))]
pub fn places_are_few()
    ensures { PlacesFew }
{}

// The rows that are laid down are ordered, valid and complete.
#[tactic(auto, using(crate::proofs::PromisesKept::rows_good))]
pub fn rows_are_good()
    ensures { RowsGood }
{}

// No two rows lie alike.
#[tactic(auto, using(crate::proofs::PromisesKept::rows_apart))]
pub fn rows_are_apart()
    ensures { RowsApart }
{}

// A rule does the examples exactly if its parts lead from the start to the end.
#[tactic(auto, using(crate::proofs::PromisesKept::does_leads))]
pub fn a_rule_leads_to_the_end()
    ensures { DoesLeads }
{}

// Candidates are parts there are.
#[tactic(auto, using(crate::proofs::PromisesKept::candidates_valid))]
pub fn candidates_are_valid()
    ensures { CandidatesValid }
{}

// They are in the order of their spelling.
#[tactic(auto, using(crate::proofs::PromisesKept::candidates_ordered))]
pub fn candidates_are_ordered()
    ensures { CandidatesOrdered }
{}

// One of them can stand for any part that goes on.
#[tactic(auto, using(crate::proofs::PromisesKept::stands_for))]
pub fn a_candidate_stands_for_each_part()
    ensures { Exchange }
{}

// A problem that is laid down holds what a search needs.
#[tactic(auto, using(crate::proofs::PromisesKept::problem_laid))]
pub fn a_problem_is_laid_right()
    ensures { ProblemLaid }
{}

// The guide is a lower bound.
#[tactic(auto, using(crate::proofs::PromisesKept::guide_lower))]
pub fn the_guide_is_a_lower_bound()
    ensures { GuideLower }
{}
