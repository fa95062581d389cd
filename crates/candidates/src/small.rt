// Whether examples are small: up to eight, with texts of up to 64 bytes.
ghost use Rattle.std.specs.Prelude.{◌≡◌};
ghost use Rattle.candidates.specs.Rows.{small_text, small_example, small_examples};
ghost use Rattle.candidates.specs.Values.{the_example, the_examples};

use crate::example::Example;
use crate::memory::{MOST_BYTES, MOST_EXAMPLES};

fn is_small_text(text: &[u8]) -> bool
    ensures { result ≡ small_text text.now }
{
    text.len() <= MOST_BYTES
}

fn is_small(example: &Example) -> bool
    ensures { result ≡ small_example (the_example example.now) }
{
    is_small_text(example.given) && is_small_text(example.wanted)
}

// Whether a problem can be laid down for the examples.
pub fn are_small(examples: &[Example]) -> bool
    ensures { result ≡ small_examples (the_examples examples.now) }
{
    examples.len() <= MOST_EXAMPLES && examples.iter().all(|example| is_small(example))
}
