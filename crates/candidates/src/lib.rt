// What can matter in a search for some examples: places by where they lie, the candidate parts at a state, and a lower bound of what is still needed.
#![tactic(auto)]

mod add;
mod candidate;
mod choose;
mod example;
mod guide;
mod kinds;
mod layout;
mod look;
mod memory;
mod position;
mod problem;
mod promises;
mod question;
mod row;
mod rows;
mod small;
mod spelled;
mod table;
mod texts;
mod view;
mod walk;
mod weight;

pub use candidate::Candidate;
pub use example::Example;
pub use layout::lay;
pub use look::Move;
pub use memory::{MOST_EXAMPLES, PROBLEM, STATE, State};
pub use problem::Problem;
pub use promises::{
    a_candidate_stands_for_each_part, a_problem_is_laid_right, a_rule_leads_to_the_end,
    candidates_are_ordered, candidates_are_valid, places_are_few, rows_are_apart, rows_are_good,
    the_guide_is_a_lower_bound,
};
pub use small::are_small;
