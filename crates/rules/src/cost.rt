// What a rule costs.
ghost use Rattle.std.specs.Prelude.{◌≡◌, ◌+◌, ◌≤◌, true, ◌==◌};
ghost use Rattle.rules.specs.Lists.{pick};
ghost use Rattle.rules.specs.Rules.{kind_cost, place_cost, part_cost, cost, a_part};
ghost use Rattle.rules.specs.Values.{kind_number, the_place, the_part};
ghost use Rattle.rules.specs.Held.{the_rule};

use crate::kind::Kind;
use crate::part::Part;
use crate::place::Place;
use crate::rule::Rule;
use crate::sides::Sides;

impl Kind {
    pub fn cost(self) -> u64
        ensures value { result ≡ kind_cost (kind_number self) }
        ensures bound { result ≤ 1 }
    {
        match self {
            Kind::Anything => 0,
            _ => 1,
        }
    }
}

impl Sides {
    fn cost(self) -> u64
        ensures value { result ≡ kind_cost (kind_number self.left) + kind_cost (kind_number self.right) }
        ensures bound { result ≤ 2 }
    {
        self.left.cost() + self.right.cost()
    }
}

// What a place costs that is so many bytes from an end.
fn offset_cost(n: u8) -> u64
    ensures value { result ≡ pick (n == 0) 2 8 }
    ensures bound { result ≤ 8 }
{
    if n == 0 { 2 } else { 8 }
}

impl Place {
    #[tactic(auto, unfolding(crate::specs::Rules::place_cost))]
    pub fn cost(self) -> u64
        ensures value { result ≡ place_cost (the_place self) }
        ensures bound { result ≤ 260 }
    {
        match self {
            Place::FromFirst(n) | Place::FromLast(n) => offset_cost(n),
            Place::NthOf { sides, n, .. } => 3 + n as u64 + sides.cost(),
        }
    }
}

// What a part costs that is one. A part alone may be any, since parts are made before it is known that they are within limits; so it is asked, here and
// where parts are spelled.
#[tactic(auto, using(crate::proofs::SumOverParts::literal_few), unfolding(crate::specs::Rules::part_cost))]
fn part_cost(part: &Part) -> u64
    requires { a_part (the_part part.now) ≡ true }
    ensures value { result ≡ part_cost (the_part part.now) }
    ensures bound { result ≤ 526 }
{
    match part {
        Part::Bytes(literal) => 4 + 4 * literal.len() as u64,
        Part::Cut(cut) => 6 + cut.from.cost() + cut.to.cost(),
    }
}

impl Rule {
    pub fn cost(&self) -> u64
        ensures { result ≡ cost (the_rule self.now) }
    {
        let parts = self.parts();
        let mut total = 0;
        for part in parts {
            total += 1 + part_cost(part);
        }
        total
    }
}
