// Where a place is in a text.
ghost use Rattle.std.specs.Prelude.{◌≡◌, ◌-◌, ◌≤◌};
ghost use Rattle.std.specs.Option.{option_to_list};
ghost use Rattle.rules.specs.Lists.{pick};
ghost use Rattle.rules.specs.Places.{nth_of, spot};
ghost use Rattle.rules.specs.Values.{kind_number, the_place};

use crate::place::Place;
use crate::sides::Sides;

// The position that comes after `step` others: from the beginning, or from the end if `back`.
fn position(len: usize, step: usize, back: bool) -> usize
    requires { step ≤ len }
    ensures { result ≡ pick back (len - step) step }
{
    if back { len - step } else { step }
}

// The nth place with these sides, counted from 1, from the end if `back`.
pub(crate) fn nth_spot(text: &[u8], sides: Sides, n: u64, back: bool) -> Option<usize>
    ensures { option_to_list result ≡ spot text.now (nth_of (kind_number sides.left) (kind_number sides.right) n back) }
{
    // A loop, since `filter` and `nth` took half as long again.
    let mut count = 0u64;
    for step in 0..=text.len() {
        let at = position(text.len(), step, back);
        if sides.is_at(text, at) {
            count += 1;
            if count == n {
                return Some(at);
            }
        }
    }
    None
}

impl Place {
    // Where the place is in a text, if it is there.
    #[tactic(auto, unfolding(crate::specs::Places::spot))]
    pub fn spot(self, text: &[u8]) -> Option<usize>
        ensures { option_to_list result ≡ spot text.now (the_place self) }
    {
        match self {
            Place::FromFirst(n) => (n as usize <= text.len()).then_some(n as usize),
            Place::FromLast(n) => text.len().checked_sub(n as usize),
            Place::NthOf { sides, n, back } => nth_spot(text, sides, n as u64, back),
        }
    }
}
