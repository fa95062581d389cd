// The search for the first rule that does some examples: over any automaton as definitions, and in lent memory as code, step by step.
#![tactic(auto)]

mod frame;
mod judge;
mod machine;
mod memory;
mod pieces;
mod progress;
mod promises;
mod refusal;
mod search;
mod seen;
mod spelled;
mod start;
mod status;
mod step;
mod whole;

pub use progress::Progress;
pub use promises::{
    an_ended_search_stays, nothing_wrong_is_said, the_first_rule_is_found, the_rule_is_spelled,
    the_search_ends_right, the_search_is_never_wrong,
};
pub use refusal::Refusal;
pub use search::{MEMORY, Search};
pub use seen::Seen;
pub use status::Status;
pub use whole::find;
