// What a part makes of a text: its own bytes, or a part of the text, handed on as a slice.
ghost use Rattle.std.specs.Prelude.{◌≡◌};
ghost use Rattle.rules.specs.Answers.{slice_made};
ghost use Rattle.rules.specs.Rules.{part_of, cut};
ghost use Rattle.rules.specs.Values.{the_place, the_part};

use crate::part::{Cut, Part};

impl Cut {
    // What stands between the two places.
    #[tactic(auto, using(crate::proofs::PlacesWithin::spot_within), unfolding(crate::specs::Rules::part_of))]
    pub fn of(self, text: &[u8]) -> Option<&[u8]>
        ensures { slice_made result ≡ part_of text.now (cut (the_place self.from) (the_place self.to)) }
    {
        text.get(self.from.spot(text)?..self.to.spot(text)?)
    }
}

impl Part {
    // What the part makes of a text.
    #[tactic(auto, unfolding(crate::specs::Rules::part_of))]
    pub fn makes<'a>(&'a self, text: &'a [u8]) -> Option<&'a [u8]>
        ensures { slice_made result ≡ part_of text.now (the_part self.now) }
    {
        match self {
            Part::Bytes(literal) => Some(literal),
            Part::Cut(cut) => cut.of(text),
        }
    }
}
