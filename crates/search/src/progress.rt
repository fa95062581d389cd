// Where a search stands.
ghost use Rattle.search.specs.Memory.{loaded, problem_in};
ghost use Rattle.search.specs.Progress.{Stands};
ghost use Rattle.search.specs.Searched.{seen_memory};

use crate::seen::Seen;
use crate::status::Status;

#[derive(Clone, Copy, PartialEq, Eq, Debug)]
pub struct Progress {
    pub status: Status,
    // What the round may spend: 16 for each unit of cost, and 1 for each part.
    pub budget: u64,
    // How many frames are in use.
    pub frames: usize,
    // How many rows of places the problem has.
    pub rows: usize,
}

impl Seen<'_> {
    // Where the search stands.
    pub fn standing(self) -> Progress
        ensures { Stands (loaded (seen_memory self.entry)) (problem_in (seen_memory self.entry)).rows result }
    {
        let machine = self.machine();
        Progress {
            status: machine.status,
            budget: machine.budget,
            frames: machine.depth,
            rows: self.problem().row_count(),
        }
    }
}
