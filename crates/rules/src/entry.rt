// The entry that finds a place in a text. Its arguments are plain numbers by design: a kind goes by its number, and `back` is 1 or not.
ghost use Rattle.std.specs.Prelude.{◌≡◌};
ghost use Rattle.rules.specs.Entry.{FindSays, refusal};
ghost use Rattle.rules.specs.declared.entry.FindRefusal.TheVariants.{NoKind};

use crate::kind::{Kind, NotAKind};
use crate::sides::Sides;
use crate::spot::nth_spot;
use thiserror::Error;

// Why a place is not looked for.
#[derive(Clone, Copy, PartialEq, Eq, Debug, Error)]
pub enum FindRefusal {
    #[error("the text is longer than 65535 bytes")]
    TooLong,
    #[error("a number is that of no kind")]
    NoKind,
}

// By hand, since the contract of `find` reads `from_gives`.
impl From<NotAKind> for FindRefusal {
    ghost from_gives = { λ _ r. r ≡ NoKind };

    fn from(_e: NotAKind) -> FindRefusal {
        FindRefusal::NoKind
    }
}

// Where the nth place is before which there is a kind `left` and behind which there is a kind `right`, by their numbers; from the end if `back` is 1.
pub fn find(
    text: &[u8],
    left: u64,
    right: u64,
    n: u64,
    back: u64,
) -> Result<Option<usize>, FindRefusal>
    ensures { FindSays text.now left right n back (refusal text.now left right) result }
{
    if text.len() > 65535 {
        return Err(FindRefusal::TooLong);
    }
    let sides = Sides {
        left: Kind::try_from(left)?,
        right: Kind::try_from(right)?,
    };
    Ok(nth_spot(text, sides, n, back == 1))
}
