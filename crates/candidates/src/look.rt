// Where a candidate leads from a state, and what it weighs; whether a state is the end, and what is still needed there.
ghost use Rattle.std.specs.Prelude.{◌≡◌, ◌+◌, ◌<◌, ◌≤◌, length};
ghost use Rattle.rules.specs.Answers.{slice_made};
ghost use Rattle.candidates.specs.Problem.{wanted_in, count_in, cut_piece, all_at_end, greatest, guide_in};
ghost use Rattle.candidates.specs.Looked.{looked, next_position, next_by, moved_by, pieces, Within, Light};
ghost use Rattle.candidates.specs.RowTable.{most_rows};
ghost use Rattle.candidates.specs.Viewed.{the_view};

use crate::candidate::Candidate;
use crate::memory::{COLUMN, GUIDE, POSITIONS, State};
use crate::problem::Problem;

// Where a candidate leads, and what it weighs.
#[derive(Clone, Copy)]
pub struct Move {
    pub state: State,
    pub weight: u64,
}

// Where a wanted text has been made to, if the piece stands next in it.
fn next_position(piece: &[u64], wanted: &[u64], at: u64) -> Option<u64>
    requires { length wanted.now ≤ 64 }
    ensures { result ≡ next_position piece.now wanted.now at }
{
    let rest = wanted.get(at as usize..)?;
    rest.starts_with(piece).then_some(at + piece.len() as u64)
}

// Examples and rows are numbers here, as in lent memory. As types of their own they would be taken apart at each index; so each function asks in a clause that its
// numbers are in range.
impl<'a> Problem<'a> {
    // What the cut by two rows makes of an example.
    fn middle(self, from: usize, to: usize, e: usize) -> Option<&'a [u64]>
        requires from { from < most_rows }
        requires to { to < most_rows }
        requires one_of_eight { e < 8 }
        ensures { slice_made result ≡ cut_piece (the_view self.entry) from to e }
    {
        let a = self.rows.at(from, e) as usize;
        let b = self.rows.at(to, e) as usize;
        self.given(e).get(a..b)
    }

    // What a candidate makes of an example.
    fn piece(self, candidate: Candidate<'a>, e: usize) -> Option<&'a [u64]>
        requires within { Within candidate }
        requires one_of_eight { e < 8 }
        ensures { slice_made result ≡ pieces (the_view self.entry) candidate.entry e }
    {
        match candidate {
            Candidate::Literal(bytes) => Some(bytes),
            Candidate::Cut { from, to } => self.middle(from, to, e),
        }
    }

    // Where a wanted text has been made to by a candidate.
    fn next(self, candidate: Candidate<'a>, e: usize, at: u64) -> Option<u64>
        requires within { Within candidate }
        requires one_of_eight { e < 8 }
        ensures { result ≡ next_by (pieces (the_view self.entry) candidate.entry e) (wanted_in (the_view self.entry) e) at }
    {
        let piece = self.piece(candidate, e)?;
        next_position(piece, self.wanted(e), at)
    }

    // Where a candidate leads from a state, if it goes on in every example.
    fn lead(self, candidate: Candidate<'a>, state: &State) -> Option<State>
        requires { Within candidate }
        ensures { result ≡ moved_by (the_view self.entry) (pieces (the_view self.entry) candidate.entry) state.now }
    {
        let mut next = *state;
        // By number: examples lie in lent memory, and what is written through `iter_mut` in a zip a proof doesn't know.
        for e in 0..self.examples {
            next[e] = self.next(candidate, e, state[e])?;
        }
        Some(next)
    }

    // Where the candidate of a number leads from a state, if it goes, and what it weighs.
    pub fn look(self, state: &State, index: usize) -> Option<Move>
        requires { index < count_in (the_view self) state.now }
        ensures value { result ≡ looked (the_view self.entry) state.now index }
        ensures bound { Light result }
    {
        let chosen = self.candidate(state, index);
        let next = self.lead(chosen, state)?;
        Some(Move {
            state: next,
            weight: self.weight(chosen),
        })
    }

    // Whether every wanted text has been made.
    pub fn at_end(self, state: &State) -> bool
        ensures { result ≡ all_at_end (the_view self.entry) (the_view self.entry).examples state.now }
    {
        (0..self.examples).all(|e| state[e] as usize == self.wanted(e).len())
    }

    // What is still needed at least, with so many parts at most: the most that one example needs.
    pub fn needed(self, parts: usize, state: &State) -> u64
        requires { parts ≤ 8 }
        ensures value { result ≡ greatest (the_view self.entry) parts (the_view self.entry).examples state.now }
        ensures bound { result < 4294967296 }
    {
        // A fold: the search spends its time here, and `max` of what each needs was slower.
        (0..self.examples).fold(0, |most, e| most.max(self.guide_of(e, state[e], parts)))
    }

    // What one example needs.
    fn guide_of(self, e: usize, at: u64, parts: usize) -> u64
        requires one_of_eight { e < 8 }
        requires few { parts ≤ 8 }
        ensures value { result ≡ guide_in (the_view self.entry) parts e at }
        ensures bound { result < 4294967296 }
    {
        if (at as usize) < POSITIONS {
            self.guide[GUIDE * e + COLUMN * at as usize + parts] % (1 << 32)
        } else {
            0
        }
    }
}
