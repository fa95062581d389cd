// A table is filled by a walk through the places that are there in the first given text, in the order of their spelling.
ghost use Rattle.std.specs.Prelude.{◌≡◌, ◌≤◌, length};
ghost use Rattle.rules.specs.Lists.{each};
ghost use Rattle.rules.specs.Places.{all_of};
ghost use Rattle.rules.specs.Values.{the_place, kind_number};
ghost use Rattle.candidates.specs.Places.{counted, places_between, places_among, places_in};
ghost use Rattle.candidates.specs.RowTable.{table_for, table_size, most_rows};
ghost use Rattle.candidates.specs.Tables.{examples_of, asked_of, the_table, Becomes, Tries, tried_for, first_of};
ghost use Rattle.candidates.specs.Weights.{smaller};

use crate::kinds::kinds_in;
use crate::question::Question;
use crate::row::row_of;
use crate::table::Table;
use rules::{Kind, Place, Sides};

// How many places there are with these sides, up to 64.
fn fits(text: &[u8], sides: Sides) -> u8
    ensures value { result ≡ smaller (length (all_of text.now (kind_number sides.left) (kind_number sides.right))) 64 }
    ensures bound { result ≤ 64 }
{
    sides.count_in(text).min(64) as u8
}

impl Table<'_> {
    // Adds the row of a place, if that is there in every given text.
    fn try_place(&mut self, question: Question, place: Place)
        ensures { Becomes self.old self.new (tried_for question.entry (the_table self.old) (the_place place)) }
    {
        if let Some(row) = row_of(place, question) {
            self.add(&row);
        }
    }

    // Tries the places that are counted in bytes, from the beginning and then from the end.
    fn try_counted(&mut self, question: Question)
        ensures { Tries question.entry self.old self.new counted }
    {
        for n in 0..65 {
            self.try_place(question, Place::FromFirst(n));
        }
        for n in 0..65 {
            self.try_place(question, Place::FromLast(n));
        }
    }

    // Tries the places with these sides that are there in the first given text.
    fn try_between(&mut self, question: Question, sides: Sides)
        ensures { Tries question.entry self.old self.new (places_between (first_of question.entry) (kind_number sides.left) (kind_number sides.right)) }
    {
        if sides.are_anything() {
            return;
        }
        for n in 0..fits(question.first_given(), sides) {
            for back in [false, true] {
                let place = Place::NthOf {
                    sides,
                    n: n + 1,
                    back,
                };
                self.try_place(question, place);
            }
        }
    }

    // Tries the places between any two of the kinds.
    fn try_kinds(&mut self, question: Question, kinds: &[Kind])
        ensures { Tries question.entry self.old self.new (places_among (first_of question.entry) (each kind_number kinds.now)) }
    {
        for left in kinds {
            for right in kinds {
                let sides = Sides {
                    left: *left,
                    right: *right,
                };
                self.try_between(question, sides);
            }
        }
    }

    // Tries all places that are there in the first given text.
    pub(crate) fn fill(&mut self, question: Question)
        ensures { Tries question.entry self.old self.new (places_in (first_of question.entry)) }
    {
        let kinds = kinds_in(question.first_given());
        self.try_counted(question);
        self.try_kinds(question, kinds.as_slice());
    }
}

// Lays down the rows for a question, and says how many there are.
#[tactic(auto, unfolding(crate::specs::RowTable::table_for))]
pub(crate) fn lay_rows(numbers: &mut [u64], question: Question) -> usize
    requires size { length numbers.old ≡ table_size }
    ensures table { record { numbers = numbers.new; rows = result } ≡ table_for (examples_of question.entry) (asked_of question.entry) numbers.old }
    ensures bound { result ≤ most_rows }
{
    let mut table = Table::of(numbers);
    table.fill(question);
    table.rows
}
