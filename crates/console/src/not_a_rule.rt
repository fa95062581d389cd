// Why a text is no rule.
use crate::expected::Expected;
use thiserror::Error;

#[derive(Clone, Copy, PartialEq, Eq, Debug, Error)]
pub enum NotARule {
    // The text fails at this byte, counted from 0, where this was expected. People count from 1.
    #[error("at byte {} of the rule: expected {expected}", .byte.saturating_add(1))]
    At { byte: usize, expected: Expected },
    #[error("there is no memory for the rule")]
    Memory,
}
