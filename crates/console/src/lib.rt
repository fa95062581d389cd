// What the programs share: rules as text, printed and read back; and a file gone through with a rule.
#![tactic(auto)]

mod expected;
mod failed;
mod not_a_rule;
mod print;
pub mod promises;
mod read;
mod read_place;
mod rows;
mod scan;
mod words;

pub use expected::Expected;
pub use not_a_rule::NotARule;
pub use print::rule_text;
pub use read::read_rule;
pub use rows::{Miss, Table, Why, carry_out};

#[cfg(test)]
mod tests;
