// How many candidates a state has, which they are, and what they weigh.
ghost use Rattle.std.specs.Prelude.{◌≡◌, ℕ, ◌*◌, ◌/◌, ◌%◌, ◌<◌, ◌≤◌};
ghost use Rattle.candidates.specs.Problem.{literals_in, count_in, cut_piece, cut_weighs, candidate_piece, candidate_weight, row_cost};
ghost use Rattle.candidates.specs.Looked.{pieces, weighs, Within};
ghost use Rattle.candidates.specs.RowTable.{most_rows};
ghost use Rattle.candidates.specs.Spelled.{cut_spelled, spelled_as, candidate_spelled};
ghost use Rattle.candidates.specs.Viewed.{the_view};

use crate::candidate::Candidate;
use crate::memory::State;
use crate::problem::Problem;
use crate::weight::{cut_weight, literal_weight};

impl<'a> Problem<'a> {
    // How many literals can go on: as many as bytes of the first wanted text are still to be made.
    fn literals(self, state: &State) -> usize
        ensures value { result ≡ literals_in (the_view self.entry) state.now }
        ensures bound { result ≤ 64 }
    {
        self.wanted(0).len().saturating_sub(state[0] as usize)
    }

    // How many cuts there are.
    fn cuts(self) -> usize
        ensures value { result ≡ (the_view self.entry).rows * (the_view self.entry).rows }
        ensures bound { result ≤ 42250000 }
    {
        self.rows.count * self.rows.count
    }

    // How many candidates a state has.
    pub fn count(self, state: &State) -> usize
        ensures value { result ≡ count_in (the_view self.entry) state.now }
        ensures bound { result ≤ 42250064 }
    {
        self.literals(state) + self.cuts()
    }

    // The cut of a number below theirs.
    fn cut(self, number: usize) -> Candidate<'a>
        requires { number < (the_view self).rows * (the_view self).rows }
        ensures value { let v = the_view self.entry in (e : ℕ) → pieces v result e ≡ cut_piece v (number / v.rows) (number % v.rows) e }
        ensures weight { let v = the_view self.entry in weighs v result ≡ cut_weighs v (number / v.rows) (number % v.rows) }
        ensures spelled { let v = the_view self.entry in spelled_as v result ≡ cut_spelled v (number / v.rows) (number % v.rows) }
        ensures right { Within result }
    {
        Candidate::Cut {
            from: number / self.rows.count,
            to: number % self.rows.count,
        }
    }

    // The candidate of a number below their count.
    pub fn candidate(self, state: &State, index: usize) -> Candidate<'a>
        requires { index < count_in (the_view self) state.now }
        ensures value { (e : ℕ) → pieces (the_view self.entry) result e ≡ candidate_piece (the_view self.entry) state.now index e }
        ensures weight { weighs (the_view self.entry) result ≡ candidate_weight (the_view self.entry) state.now index }
        ensures spelled { spelled_as (the_view self.entry) result ≡ candidate_spelled (the_view self.entry) state.now index }
        ensures right { Within result }
    {
        let literals = self.literals(state);
        if index < literals {
            let from = state[0] as usize;
            Candidate::Literal(&self.wanted(0)[from..from + (index + 1)])
        } else {
            self.cut(index - literals)
        }
    }

    // What a place of this row costs.
    fn row_cost(self, row: usize) -> u64
        requires { row < most_rows }
        ensures value { result ≡ row_cost (the_view self.entry) row }
        ensures bound { result < 256 }
    {
        self.rows.cost(row) % 256
    }

    // What a candidate weighs.
    pub fn weight(self, candidate: Candidate<'a>) -> u64
        requires { Within candidate }
        ensures value { result ≡ weighs (the_view self.entry) candidate.entry }
        ensures bound { result < 16384 }
    {
        match candidate {
            Candidate::Literal(bytes) => literal_weight(bytes.len() as u64),
            Candidate::Cut { from, to } => cut_weight(self.row_cost(from), self.row_cost(to)),
        }
    }
}
