// A candidate is spelled into lent bytes, by the numbers that lie in memory. Crate `rules` spells places; these numbers need not say one.
ghost use Rattle.std.specs.Prelude.{◌≡◌, ◌+◌, ◌<◌, ◌≤◌, length};
ghost use Rattle.rules.specs.Writing.{the_writing, Writes, HasRoom, HasRoomFor};
ghost use Rattle.candidates.specs.RowTable.{most_rows};
ghost use Rattle.candidates.specs.Spelled.{as_byte, literal_spelled, row_spelled, cut_spelled, candidate_spelled};
ghost use Rattle.candidates.specs.Viewed.{the_view};

use crate::candidate::Candidate;
use crate::memory::State;
use crate::problem::Problem;
use rules::Writer;

// A number as a byte, whatever lies in memory.
fn as_byte(number: u64) -> u8
    ensures { result ≡ as_byte number }
{
    (number % 256) as u8
}

// Spells a literal. In crate `rules` a literal is bytes, which are written at once; here each number has to be taken as one.
fn put_literal(literal: &[u64], writer: &mut Writer)
    requires few { length literal.now ≤ 64 }
    requires room { HasRoom (the_writing writer.old) (literal_spelled literal.now) }
    ensures { Writes writer.old writer.new (literal_spelled literal.now) }
{
    writer.put(&[0, literal.len() as u8]);
    for number in literal {
        writer.put(&[as_byte(*number)]);
    }
}

impl<'a> Problem<'a> {
    // Spells the place of a row.
    #[tactic(auto, unfolding(crate::specs::Spelled::numbers_spelled))]
    fn put_place(self, row: usize, writer: &mut Writer)
        requires row { row < most_rows }
        requires room { HasRoom (the_writing writer.old) (row_spelled (the_view self).table row) }
        ensures { Writes writer.old writer.new (row_spelled (the_view self.entry).table row) }
    {
        let [tag, left, right, n, back] = self.rows.place(row);
        match tag {
            0 | 1 => writer.put(&[as_byte(tag), as_byte(n)]),
            _ => writer.put(&[
                2,
                as_byte(left / 256),
                as_byte(left),
                as_byte(right / 256),
                as_byte(right),
                as_byte(n),
                (back == 1) as u8,
            ]),
        }
    }

    // Spells the cut by two rows.
    fn put_cut(self, from: usize, to: usize, writer: &mut Writer)
        requires from { from < most_rows }
        requires to { to < most_rows }
        requires room { HasRoom (the_writing writer.old) (cut_spelled (the_view self) from to) }
        ensures { Writes writer.old writer.new (cut_spelled (the_view self.entry) from to) }
    {
        writer.put(&[1]);
        self.put_place(from, writer);
        self.put_place(to, writer);
    }

    // Spells the candidate of a number; where there is none of this number, nothing is written.
    pub fn put_candidate(self, state: &State, index: usize, writer: &mut Writer)
        requires { HasRoomFor (the_writing writer.old) 66 }
        ensures writes { Writes writer.old writer.new (candidate_spelled (the_view self.entry) state.now index) }
        ensures bound { (the_writing writer.new).at ≤ (the_writing writer.old).at + 66 }
    {
        if index >= self.count(state) {
            return;
        }
        match self.candidate(state, index) {
            Candidate::Literal(bytes) => put_literal(bytes, writer),
            Candidate::Cut { from, to } => self.put_cut(from, to, writer),
        }
    }
}
