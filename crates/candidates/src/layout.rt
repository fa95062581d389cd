// A problem is laid down in lent numbers: the texts of its examples, the rows of their places and the guide.
ghost use Rattle.std.specs.Prelude.{◌≡◌, ◌≤◌, true, length};
ghost use Rattle.rules.specs.Lists.{every};
ghost use Rattle.candidates.specs.LaidProblem.{laid_problem};
ghost use Rattle.candidates.specs.Problem.{problem_size};
ghost use Rattle.candidates.specs.Rows.{short_example};
ghost use Rattle.candidates.specs.Values.{the_examples, the_asked};

use crate::example::Example;
use crate::guide::lay_guides;
use crate::memory::{EXAMPLE_COUNT_AT, GUIDES_AT, ROW_COUNT_AT, ROWS_AT, TEXTS_AT};
use crate::question::Question;
use crate::rows::Rows;
use crate::texts::lay_texts;
use crate::walk::lay_rows;

// Lays down the problem of some examples, and a text that may be asked about.
pub fn lay(numbers: &mut [u64], examples: &[Example], asked: Option<&[u8]>)
    requires size { length numbers.old ≡ problem_size }
    requires few { length examples.now ≤ 8 }
    requires short { every short_example (the_examples examples.now) ≡ true }
    ensures { numbers.new ≡ laid_problem (the_examples examples.now) (the_asked asked.entry) numbers.old }
{
    let (head, rest) = numbers.split_at_mut(TEXTS_AT);
    let (texts, rest) = rest.split_at_mut(GUIDES_AT - TEXTS_AT);
    let (guide, table) = rest.split_at_mut(ROWS_AT - GUIDES_AT);
    let question = Question { examples, asked };
    lay_texts(texts, question);
    let count = lay_rows(table, question);
    let rows = Rows {
        numbers: table,
        count,
    };
    lay_guides(guide, rows, question);
    head[EXAMPLE_COUNT_AT] = examples.len() as u64;
    head[ROW_COUNT_AT] = count as u64;
}
