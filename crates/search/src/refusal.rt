// What is wrong with examples that a search can't be begun on.
ghost use Rattle.std.specs.Prelude.{◌≡◌};
ghost use Rattle.candidates.specs.Values.{the_examples};
ghost use Rattle.search.specs.Begun.{told_by};
ghost use Rattle.search.specs.Refusals.{refusal_of};

use candidates::{Example, MOST_EXAMPLES, are_small};
use thiserror::Error;

#[derive(Clone, Copy, PartialEq, Eq, Debug, Error)]
pub enum Refusal {
    #[error("there are more than eight examples")]
    TooMany,
    #[error("a text is longer than 64 bytes")]
    TooLong,
}

// What is wrong with the examples, if anything is.
pub(crate) fn check_examples(examples: &[Example]) -> Result<(), Refusal>
    ensures { result ≡ told_by (refusal_of (the_examples examples.now)) }
{
    if examples.len() > MOST_EXAMPLES {
        return Err(Refusal::TooMany);
    }
    if !are_small(examples) {
        return Err(Refusal::TooLong);
    }
    Ok(())
}
