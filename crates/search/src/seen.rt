// A search in memory that is read: its machine and its problem.
ghost use Rattle.std.specs.Prelude.{◌≡◌, length};
ghost use Rattle.search.specs.Memory.{memory_size};

use crate::machine::Machine;
use crate::memory::MACHINE;
use crate::search::MEMORY;
use candidates::Problem;

// Beside `Search` as a `&` is beside a `&mut`: this one can be copied, and asks for less.
#[derive(Clone, Copy)]
pub struct Seen<'a> {
    memory: &'a [u64],
    ghost size: { length memory.now ≡ memory_size },
}

impl<'a> Seen<'a> {
    ghost use Rattle.candidates.specs.Viewed.{the_view};
    ghost use Rattle.search.specs.Holds.{the_held};
    ghost use Rattle.search.specs.Memory.{loaded, problem_in};
    ghost use Rattle.search.specs.Searched.{seen_memory};

    // The search that lies in this memory.
    pub fn over(memory: &'a [u64]) -> Seen<'a>
        requires { length memory.now ≡ memory_size }
        ensures { seen_memory result ≡ memory.now }
    {
        Seen { memory }
    }

    // The problem, as it lies in memory.
    pub(crate) fn problem(self) -> Problem<'a>
        ensures { the_view result ≡ problem_in (seen_memory self.entry) }
    {
        Problem::of(&self.memory[MACHINE..MEMORY])
    }

    // The machine, as it lies in memory.
    pub(crate) fn machine(self) -> Machine
        ensures { the_held result ≡ loaded (seen_memory self.entry) }
    {
        Machine::load(self.memory)
    }
}
