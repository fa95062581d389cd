// How a machine lies in memory.
ghost use Rattle.std.specs.Prelude.{◌≡◌, ◌+◌, ◌≤◌, length, drop};
ghost use Rattle.rules.specs.Answers.{written};
ghost use Rattle.search.specs.Memory.{status_number, status_from, frame_numbers, frame_from, loaded, stored};
ghost use Rattle.search.specs.Holds.{the_held};

use crate::frame::Frame;
use crate::machine::{FAR, LIMIT, MOST_PARTS, Machine};
use crate::status::Status;
use candidates::STATE;
use std::array;

// How far the search has come, the budget, the shortfall, and how many frames are in use.
const HEAD: usize = 4;

// The numbers of a frame: a state, what is left of the budget, and the next candidate.
const FRAME: usize = STATE + 2;

// The numbers of a machine.
pub(crate) const MACHINE: usize = HEAD + MOST_PARTS * FRAME;

// The numbers are written out, so that memory does not hang on the order of the cases.
impl From<Status> for u64 {
    ghost from_gives = { λ s n. n ≡ status_number s };

    fn from(status: Status) -> u64 {
        match status {
            Status::Going => 0,
            Status::Found => 1,
            Status::NoRule => 2,
        }
    }
}

// Numbers that no search leaves there are taken for the last.
impl From<u64> for Status {
    ghost from_gives = { λ n s. s ≡ status_from n };

    fn from(number: u64) -> Status {
        match number {
            0 => Status::Going,
            1 => Status::Found,
            _ => Status::NoRule,
        }
    }
}

impl Frame {
    // The frame that lies in memory from `at` on.
    fn at(memory: &[u64], at: usize) -> Frame
        requires { at + FRAME ≤ length memory.now }
        ensures { result ≡ frame_from (drop at memory.now) }
    {
        let mut state = [0; STATE];
        state.copy_from_slice(&memory[at..at + STATE]);
        Frame {
            state,
            left: memory[at + STATE],
            index: memory[at + STATE + 1],
        }
    }

    // Lays the frame down in memory from `at` on. It is taken by value: behind a reference, a search took a quarter more instructions.
    fn put(self, memory: &mut [u64], at: usize)
        requires { at + FRAME ≤ length memory.old }
        ensures laid { memory.new ≡ written memory.old at (frame_numbers self) }
        // The type says it too, but a caller does not see that of an element.
        ensures nine { length self.state ≡ 9 }
    {
        let rest = [self.left, self.index];
        memory[at..at + STATE].copy_from_slice(&self.state);
        memory[at + STATE..at + FRAME].copy_from_slice(&rest);
    }
}

impl Machine {
    // The machine that lies in memory; numbers that no search leaves there are cut down to those that one can.
    pub(crate) fn load(memory: &[u64]) -> Machine
        requires { MACHINE ≤ length memory.now }
        ensures { the_held result ≡ loaded memory.now }
    {
        Machine {
            status: memory[0].into(),
            budget: memory[1].min(LIMIT),
            short: memory[2].min(FAR),
            depth: (memory[3] as usize).min(MOST_PARTS),
            frames: array::from_fn(|i| Frame::at(memory, HEAD + FRAME * i)),
        }
    }

    // Lays the machine down in memory.
    pub(crate) fn store(&self, memory: &mut [u64])
        requires { MACHINE ≤ length memory.old }
        ensures { memory.new ≡ stored (the_held self.now) memory.old }
    {
        let head = [
            self.status.into(),
            self.budget,
            self.short,
            self.depth as u64,
        ];
        memory[..HEAD].copy_from_slice(&head);
        // By number: of what is written through the library's chunks a proof knows only how long it is.
        for (i, frame) in self.frames.iter().enumerate() {
            frame.put(memory, HEAD + FRAME * i);
        }
    }
}
