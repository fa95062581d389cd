// What is wrong with what was taken for a rule, or for the spelling of one.
ghost use Rattle.std.specs.Prelude.{◌≡◌};
ghost use Rattle.rules.specs.declared.fault.Fault.TheVariants.{Memory};

use std::alloc::{AllocError, AllocFailed};
use thiserror::Error;

#[derive(Clone, Copy, PartialEq, Eq, Debug, Error)]
pub enum Fault {
    #[error("a rule has up to 8 parts, and this one {0}")]
    PartCount(usize),
    #[error("a literal has 1 to 64 bytes, and this one {0}")]
    LiteralLength(usize),
    #[error("a place's number is at most 64, and this one is {0}")]
    PlaceNumber(u8),
    #[error("an nth place is counted from 1, and this one is number 0")]
    NthZero,
    #[error("an nth place has a kind on one side at least")]
    NoKind,
    #[error("no kind has the number {0}")]
    KindNumber(u16),
    // This byte stands where a spelling says which part, which place or which direction follows.
    #[error("the byte {0} begins no part and no place")]
    Tag(u8),
    #[error("the spelling ends before the rule does")]
    EndsEarly,
    #[error("{0} bytes stand after the end of the spelling")]
    LeftOver(usize),
    #[error("there is no memory for the rule")]
    Memory,
}

// By hand, since contracts read `from_gives`.
impl From<AllocError> for Fault {
    ghost from_gives = { λ _ r. r ≡ Memory };

    fn from(_e: AllocError) -> Fault {
        Fault::Memory
    }
}

impl<T: Drop> From<AllocFailed<T>> for Fault {
    ghost from_gives = { λ _ r. r ≡ Memory };

    fn from(_e: AllocFailed<T>) -> Fault {
        Fault::Memory
    }
}
