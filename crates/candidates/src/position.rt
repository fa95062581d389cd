// Where a place lies in each of the texts.
ghost use Rattle.std.specs.Prelude.{◌≡◌};
ghost use Rattle.rules.specs.Values.{the_place};
ghost use Rattle.candidates.specs.Positions.{positions_in};
ghost use Rattle.candidates.specs.RowTable.{asked_position, first_given};
ghost use Rattle.candidates.specs.Rows.{IfThere};
ghost use Rattle.candidates.specs.Tables.{examples_of, asked_of};

use crate::question::Question;
use rules::Place;

// Where a place is missing a row has this number, since lent memory has numbers alone.
const MISSING: u64 = 255;

impl<'a> Question<'a> {
    // Where a place lies in each given text, if it is there in all; 0 past the last example.
    pub(crate) fn positions(self, place: Place) -> Option<[u64; 8]>
        ensures { IfThere (examples_of self.entry) (the_place place) result (positions_in (examples_of self.entry) 8 (the_place place)) }
    {
        let mut at = [0u64; 8];
        // By number: past the last example 0 stands, so that `array::try_from_fn` is no plainer.
        for (e, example) in self.examples.iter().enumerate() {
            at[e] = place.spot(example.given)? as u64;
        }
        Some(at)
    }

    // Where it lies in the text that is asked about; 0 if there is none.
    pub(crate) fn asked_position(self, place: Place) -> u64
        ensures { result ≡ asked_position (asked_of self.entry) (the_place place) }
    {
        self.asked.map_or(0, |text| {
            place.spot(text).map_or(MISSING, |at| at as u64)
        })
    }

    // The given text of the first example.
    pub(crate) fn first_given(self) -> &'a [u8]
        ensures { result.now ≡ first_given (examples_of self.entry) }
    {
        match self.examples {
            [first, ..] => first.given,
            [] => &[],
        }
    }
}
