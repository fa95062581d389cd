// A row of the table: the numbers that say a place, what it costs, and where it lies.
ghost use Rattle.std.specs.Prelude.{◌≡◌};
ghost use Rattle.rules.specs.Values.{the_place};
ghost use Rattle.candidates.specs.RowTable.{place_numbers, row_of, alike};
ghost use Rattle.candidates.specs.Rows.{IfThere};
ghost use Rattle.candidates.specs.Tables.{examples_of, asked_of};

use crate::memory::{ASKED_AT, COST_AT, POSITIONS_AT, ROW};
use crate::question::Question;
use rules::Place;

pub(crate) type Row = [u64; ROW];

// The five numbers that say a place: which sort it is goes by a number too, since lent memory has numbers alone.
#[tactic(auto, unfolding(crate::specs::RowTable::place_numbers))]
fn place_numbers(place: Place) -> [u64; COST_AT]
    ensures { result ≡ place_numbers (the_place place) }
{
    match place {
        Place::FromFirst(n) => [0, 0, 0, n as u64, 0],
        Place::FromLast(n) => [1, 0, 0, n as u64, 0],
        Place::NthOf { sides, n, back } => [
            2,
            u16::from(sides.left) as u64,
            u16::from(sides.right) as u64,
            n as u64,
            back as u64,
        ],
    }
}

// The row of a place, if that is there in every given text.
pub(crate) fn row_of(place: Place, question: Question) -> Option<Row>
    ensures { IfThere (examples_of question.entry) (the_place place) result (row_of (examples_of question.entry) (asked_of question.entry) (the_place place)) }
{
    let at = question.positions(place)?;
    let mut row = [0; ROW];
    row[..COST_AT].copy_from_slice(&place_numbers(place));
    row[COST_AT] = place.cost();
    row[POSITIONS_AT..ASKED_AT].copy_from_slice(&at);
    row[ASKED_AT] = question.asked_position(place);
    Some(row)
}

// Whether two rows lie alike.
pub(crate) fn lie_alike(row: &Row, other: &Row) -> bool
    ensures { result ≡ alike row.now other.now }
{
    row[POSITIONS_AT..] == other[POSITIONS_AT..]
}
