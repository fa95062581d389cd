// What a problem holds, read from its numbers.
ghost use Rattle.std.specs.Prelude.{◌≡◌, ◌+◌, ◌<◌, ◌≤◌, min, length, take, drop, slice_index};
ghost use Rattle.candidates.specs.Problem.{view_of, given_in, wanted_in};
ghost use Rattle.candidates.specs.Viewed.{the_view};

use crate::memory::{
    EXAMPLE, EXAMPLE_COUNT_AT, GIVEN_AT, GUIDES_AT, MOST_BYTES, MOST_EXAMPLES, MOST_ROWS, PROBLEM,
    ROW_COUNT_AT, ROWS_AT, TEXTS_AT, WANTED_AT,
};
use crate::problem::Problem;
use crate::rows::Rows;

impl<'a> Problem<'a> {
    // The numbers that a problem was laid down in, as a problem.
    pub fn of(numbers: &'a [u64]) -> Problem<'a>
        requires { length numbers.now ≡ 109866 }
        ensures { the_view result ≡ view_of numbers.now }
    {
        Problem {
            examples: (numbers[EXAMPLE_COUNT_AT] as usize).min(MOST_EXAMPLES),
            rows: Rows {
                numbers: &numbers[ROWS_AT..PROBLEM],
                count: (numbers[ROW_COUNT_AT] as usize).min(MOST_ROWS),
            },
            texts: &numbers[TEXTS_AT..GUIDES_AT],
            guide: &numbers[GUIDES_AT..ROWS_AT],
        }
    }

    // How many rows there are.
    pub fn row_count(self) -> usize
        ensures { result ≡ (the_view self.entry).rows }
    {
        self.rows.count
    }

    // The text that lies from a position on, as long as the number at another says.
    fn text(self, long: usize, from: usize) -> &'a [u64]
        requires said { long < 1170 }
        requires room { from + 64 ≤ 1170 }
        ensures value { result.now ≡ take (min (slice_index self.entry.texts.now long) 64) (drop from self.entry.texts.now) }
        ensures bound { length result.now ≤ 64 }
    {
        let length = (self.texts[long] as usize).min(MOST_BYTES);
        &self.texts[from..from + length]
    }

    // The given text of an example.
    pub(crate) fn given(self, e: usize) -> &'a [u64]
        requires { e < 9 }
        ensures { result.now ≡ given_in (the_view self.entry) e }
    {
        self.text(EXAMPLE * e, EXAMPLE * e + GIVEN_AT)
    }

    // The wanted text of an example.
    pub(crate) fn wanted(self, e: usize) -> &'a [u64]
        requires { e < 9 }
        ensures value { result.now ≡ wanted_in (the_view self.entry) e }
        ensures bound { length result.now ≤ 64 }
    {
        self.text(EXAMPLE * e + 1, EXAMPLE * e + WANTED_AT)
    }
}
