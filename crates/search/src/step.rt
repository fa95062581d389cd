// One step of a search: a look at a candidate, back to the frame before, or the next round.
ghost use Rattle.std.specs.Prelude.{◌≡◌, ◌<◌};
ghost use Rattle.candidates.specs.Viewed.{the_view};
ghost use Rattle.search.specs.Steps.{held, held_step, round_with};
ghost use Rattle.search.specs.declared.status.Status.TheVariants.{Going};
ghost use Rattle.search.specs.ByExamples.{held_begun};
ghost use Rattle.search.specs.Holds.{the_held};

use crate::frame::Frame;
use crate::judge::{Outcome, judge};
use crate::machine::{FAR, LIMIT, MOST_PARTS, Machine};
use crate::status::Status;
use candidates::{Problem, STATE, State};

// The state that a search starts from: nothing is made yet.
const START: State = [0; STATE];

impl Machine {
    // Ends with no frame in use.
    fn end(&mut self, status: Status)
        ensures { the_held self.new ≡ held status 0 0 0 self.old.frames }
    {
        *self = Machine {
            status,
            budget: 0,
            short: 0,
            depth: 0,
            frames: self.frames,
        };
    }

    // Begins a round with this budget, or ends where no rule weighs as much.
    pub(crate) fn begin_round(&mut self, budget: u64)
        ensures { the_held self.new ≡ round_with budget (the_held self.old).frames }
    {
        if budget > LIMIT {
            self.end(Status::NoRule);
            return;
        }
        *self = Machine {
            status: Status::Going,
            budget,
            short: FAR,
            depth: 1,
            frames: self.frames,
        };
        self.frames[0] = Frame::entered(START, budget);
    }

    // Begins the search: it is over at once if nothing is wanted.
    pub(crate) fn begin(&mut self, problem: Problem)
        ensures { the_held self.new ≡ held_begun (the_view problem.entry) (the_held self.old).frames }
    {
        if problem.at_end(&START) {
            self.end(Status::Found);
        } else {
            self.begin_round(problem.needed(MOST_PARTS, &START));
        }
    }

    // A look at the next candidate of the last frame in use; or back to the frame before it, if there is none.
    #[tactic(auto, unfolding(crate::specs::Steps::held_step, crate::specs::Steps::going_step))]
    fn look_on(&mut self, problem: Problem)
        requires going { self.old.status ≡ Going }
        requires in_use { 0 < self.old.depth }
        ensures { the_held self.new ≡ held_step (the_view problem.entry) (the_held self.old) }
    {
        let last = self.depth - 1;
        let frame = &self.frames[last];
        if frame.index as usize >= problem.count(&frame.state) {
            self.depth = last;
            return;
        }
        let outcome = judge(problem, frame, MOST_PARTS - self.depth, self.short);
        self.frames[last].index += 1;
        match outcome {
            Outcome::Over(short) => self.short = short,
            Outcome::Ends => self.status = Status::Found,
            Outcome::Enters { state, left } => if self.depth < MOST_PARTS {
                self.frames[self.depth] = Frame::entered(state, left);
                self.depth += 1;
            },
        }
    }

    // One step.
    #[tactic(auto, unfolding(crate::specs::Steps::held_step, crate::specs::Steps::going_step))]
    pub(crate) fn step(&mut self, problem: Problem)
        ensures { the_held self.new ≡ held_step (the_view problem.entry) (the_held self.old) }
    {
        match self.status {
            Status::Going if self.depth == 0 => self.begin_round(self.budget + self.short),
            Status::Going => self.look_on(problem),
            Status::Found | Status::NoRule => {}
        }
    }
}
