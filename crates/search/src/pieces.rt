// A search is advanced a piece at a time.
ghost use Rattle.std.specs.Prelude.{◌≡◌};
ghost use Rattle.candidates.specs.Viewed.{the_view};
ghost use Rattle.search.specs.Memory.{stepped_by, advanced, loaded, problem_in};
ghost use Rattle.search.specs.Steps.{held_steps};
ghost use Rattle.search.specs.Holds.{the_held};
ghost use Rattle.search.specs.Searched.{the_memory, Becomes};

use crate::machine::Machine;
use crate::search::Search;
use crate::status::Status;
use candidates::Problem;

// So many steps make a piece.
const PIECE: usize = 64;

impl Machine {
    // So many steps.
    #[tactic(auto, using(crate::proofs::StepsInTurn::steps_none, crate::proofs::StepsInTurn::steps_more))]
    fn run(&mut self, problem: Problem, steps: usize)
        ensures { the_held self.new ≡ held_steps (the_view problem.entry) steps (the_held self.old) }
    {
        for _ in 0..steps {
            self.step(problem);
        }
    }
}

impl Search<'_> {
    // Advances the search by so many steps, each of which looks at one candidate at most, and says how far it has come then.
    pub fn advance_by(&mut self, steps: usize) -> Status
        ensures becomes { Becomes self.old self.new (stepped_by steps (the_memory self.old)) }
        ensures status { result ≡ (held_steps (problem_in (the_memory self.old)) steps (loaded (the_memory self.old))).status }
    {
        let seen = self.seen();
        let mut machine = seen.machine();
        machine.run(seen.problem(), steps);
        self.keep(&machine);
        machine.status
    }

    // Advances the search by a piece, and says how far it has come then.
    #[tactic(auto, unfolding(crate::specs::Memory::advanced))]
    pub fn advance(&mut self) -> Status
        ensures becomes { Becomes self.old self.new (advanced (the_memory self.old)) }
        ensures status { result ≡ (held_steps (problem_in (the_memory self.old)) 64 (loaded (the_memory self.old))).status }
    {
        self.advance_by(PIECE)
    }
}
