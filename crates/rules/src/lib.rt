// Rules that make a text of a text: what they make, what they cost, how they are spelled, and which comes first.
#![tactic(auto)]

mod cost;
mod cut;
mod entry;
mod fault;
mod kind;
mod makes;
mod order;
mod part;
mod place;
mod promises;
mod reading;
mod room;
mod rule;
mod sides;
mod spelling;
mod spot;
mod worked;

pub use entry::{FindRefusal, find};
pub use fault::Fault;
pub use kind::{Kind, NotAKind};
pub use part::{Cut, Part};
pub use place::Place;
pub use promises::{
    a_first_rule_if_any, a_spelling_is_read_back, first_or_none, more_examples,
    no_doubt_means_the_same, no_idle_part, one_first_rule, one_part_less_costs_less,
    parts_make_parts, places_lie_within, spelled_once, what_is_read_is_spelled,
};
pub use room::{NoRoom, Writer};
pub use rule::Rule;
pub use sides::Sides;
pub use worked::{worked_refusals, worked_table};
