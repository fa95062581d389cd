// A place in a text.
ghost use Rattle.std.specs.Prelude.{◌≡◌, Bool, true, OnOk};
ghost use Rattle.rules.specs.Faults.{checked, place_fault, number_fault, nth_fault};
ghost use Rattle.rules.specs.Places.{nth_of};
ghost use Rattle.rules.specs.Rules.{a_place};
ghost use Rattle.rules.specs.Values.{kind_number, the_place};

use crate::fault::Fault;
use crate::sides::Sides;

#[derive(Clone, Copy, PartialEq, Eq, Debug)]
pub enum Place {
    // So many bytes from the beginning.
    FromFirst(u8),
    // So many bytes from the end.
    FromLast(u8),
    // The nth place with these sides, counted from 1; from the end if `back`.
    NthOf { sides: Sides, n: u8, back: bool },
}

// Whether a place may have this number.
fn check_number(n: u8) -> Result<(), Fault>
    ensures { result ≡ checked (number_fault n) }
{
    if n > 64 {
        return Err(Fault::PlaceNumber(n));
    }
    Ok(())
}

// Whether there is an nth place with these sides.
#[tactic(auto, unfolding(crate::specs::Rules::a_place))]
fn check_nth(sides: Sides, n: u8) -> Result<(), Fault>
    ensures value { result ≡ checked (nth_fault (kind_number sides.left) (kind_number sides.right) n) }
    ensures right { (back : Bool) → OnOk result (a_place (nth_of (kind_number sides.left) (kind_number sides.right) n back) ≡ true) }
{
    if sides.are_anything() {
        return Err(Fault::NoKind);
    }
    if n == 0 {
        return Err(Fault::NthZero);
    }
    check_number(n)
}

impl Place {
    // Whether this is a place that a rule may have, and if not, what is wrong with it.
    #[tactic(auto, unfolding(crate::specs::Rules::a_place))]
    pub fn check(self) -> Result<(), Fault>
        ensures value { result ≡ checked (place_fault (the_place self)) }
        ensures right { OnOk result (a_place (the_place self) ≡ true) }
    {
        match self {
            Place::FromFirst(n) | Place::FromLast(n) => check_number(n),
            Place::NthOf { sides, n, .. } => check_nth(sides, n),
        }
    }
}
