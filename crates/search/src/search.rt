// A search in memory that is lent to it: the machine in front, and behind it the problem.
ghost use Rattle.std.specs.Prelude.{◌≡◌, true, length};
ghost use Rattle.search.specs.Memory.{memory_size};

use crate::machine::Machine;
use crate::memory::MACHINE;
use crate::seen::Seen;
use candidates::{Example, PROBLEM, lay};

// So many numbers of memory a search takes.
pub const MEMORY: usize = MACHINE + PROBLEM;

#[derive(Drop)]
pub struct Search<'a> {
    memory: &'a mut [u64],
    ghost size: { length memory.now ≡ memory_size },
}

impl<'a> Search<'a> {
    ghost use Rattle.candidates.specs.Rows.{small_examples};
    ghost use Rattle.candidates.specs.Values.{the_examples};
    ghost use Rattle.search.specs.Begun.{with_problem};
    ghost use Rattle.search.specs.Holds.{the_held};
    ghost use Rattle.search.specs.Memory.{stored};
    ghost use Rattle.search.specs.Searched.{lent, the_memory, seen_memory, Becomes};

    // The search that lies in this memory, or is to be begun there.
    pub fn over(memory: &'a mut [u64]) -> Search<'a>
        requires { length memory.old ≡ memory_size }
        ensures same_reference { (lent result).ghost_name ≡ memory.entry.ghost_name }
        ensures memory { the_memory result ≡ memory.old }
    {
        Search { memory }
    }

    // The search, to be read.
    pub fn seen(&self) -> Seen<'_>
        ensures { seen_memory result ≡ the_memory self.now }
    {
        Seen::over(self.memory)
    }

    // Lays down the problem of the examples.
    pub(crate) fn lay(&mut self, examples: &[Example])
        requires { small_examples (the_examples examples.now) ≡ true }
        ensures { Becomes self.old self.new (with_problem (the_examples examples.now) (the_memory self.old)) }
    {
        lay(&mut self.memory[MACHINE..MEMORY], examples, None);
    }

    // Lays the machine down.
    pub(crate) fn keep(&mut self, machine: &Machine)
        ensures { Becomes self.old self.new (stored (the_held machine.now) (the_memory self.old)) }
    {
        machine.store(self.memory);
    }
}
