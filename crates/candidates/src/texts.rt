// The texts of the examples in lent numbers, one number for each byte.
ghost use Rattle.std.specs.Prelude.{◌≡◌, ◌+◌, ◌<◌, ◌≤◌, true, length};
ghost use Rattle.candidates.specs.LaidProblem.{with_text, with_example, texts_laid};
ghost use Rattle.candidates.specs.Rows.{short_example};
ghost use Rattle.candidates.specs.Tables.{examples_of};
ghost use Rattle.candidates.specs.Values.{the_example};

use crate::example::Example;
use crate::memory::{EXAMPLE, GIVEN_AT, WANTED_AT};
use crate::question::Question;

// Lays down a text from a position on.
fn put_text(out: &mut [u64], at: usize, text: &[u8])
    requires room { at + length text.now ≤ length out.old }
    ensures { out.new ≡ with_text out.old at text.now }
{
    // By number: of what is written through `iter_mut` in a zip a proof knows only how long it is.
    for (i, byte) in text.iter().enumerate() {
        out[at + i] = *byte as u64;
    }
}

// Lays down the texts of example e in their place.
fn put_example(out: &mut [u64], e: usize, example: &Example)
    requires size { length out.old ≡ 1170 }
    requires one_of_eight { e < 8 }
    requires short { short_example (the_example example.now) ≡ true }
    ensures { out.new ≡ with_example out.old e example.now.given.now example.now.wanted.now }
{
    out[EXAMPLE * e] = example.given.len() as u64;
    out[EXAMPLE * e + 1] = example.wanted.len() as u64;
    put_text(out, EXAMPLE * e + GIVEN_AT, example.given);
    put_text(out, EXAMPLE * e + WANTED_AT, example.wanted);
}

// Lays down the texts of all examples.
pub(crate) fn lay_texts(out: &mut [u64], question: Question)
    requires size { length out.old ≡ 1170 }
    ensures { out.new ≡ texts_laid (examples_of question.entry) (length question.entry.examples.now) out.old }
{
    // By number: of what is written through the library's chunks a proof knows only how long it is.
    for (e, example) in question.examples.iter().enumerate() {
        put_example(out, e, example);
    }
}
