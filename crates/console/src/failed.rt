// Where a text is no rule: how many bytes were left there, and what was expected.
ghost use Rattle.std.specs.Prelude.{◌≡◌, length};
ghost use Rattle.console.specs.declared.failed.Stopped.TheVariants.{Failed as At, Memory};

use crate::expected::Expected;
use std::alloc::AllocFailed;

#[derive(Clone, Copy)]
pub struct Failed {
    pub left: usize,
    pub expected: Expected,
}

impl Failed {
    // At the beginning of what is left of the text.
    pub fn at(rest: &[u8], wanted: Expected) -> Failed
        ensures left { result.left ≡ length rest.now }
        ensures expected { result.expected ≡ wanted }
    {
        Failed {
            left: rest.len(),
            expected: wanted,
        }
    }
}

// Why nothing was read. Reading counts what is left; `NotARule` says at which byte of the whole text that is. What `?` makes of an error is written by hand,
// since contracts name it.
#[derive(Clone, Copy)]
pub enum Stopped {
    Failed(Failed),
    Memory,
}

impl From<Failed> for Stopped {
    ghost from_gives = { λ f r. r ≡ At f };

    fn from(failed: Failed) -> Stopped {
        Stopped::Failed(failed)
    }
}

impl<T: Drop> From<AllocFailed<T>> for Stopped {
    ghost from_gives = { λ _ r. r ≡ Memory };

    fn from(_e: AllocFailed<T>) -> Stopped {
        Stopped::Memory
    }
}
