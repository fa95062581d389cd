// A lower bound of the weight that one example alone still needs, by position in its wanted text and by the number of parts.
ghost use Rattle.std.specs.Prelude.{◌≡◌, ◌+◌, ◌*◌, ◌<◌, ◌≤◌, length, drop, replicate};
ghost use Rattle.candidates.specs.Guide.{lowered, least_costs, all_costs, along, steps, least_in, needed_with, column_in, NoneAbove};
ghost use Rattle.candidates.specs.Guide.{with_column, columns, laid_columns, guides_laid};
ghost use Rattle.candidates.specs.Tables.{examples_of};

use crate::memory::{COLUMN, COST_AT, GUIDE, MOST_BYTES, POSITIONS, POSITIONS_AT};
use crate::question::Question;
use crate::rows::Rows;
use crate::weight::{cut_weight, literal_weight};
use std::array;

// More than any rule weighs: said where no rule will do, since sums and budgets need a number there.
const FAR: u64 = 65536;

// Said of a position where no place is, since the least of costs needs a number there: as much as any costs.
const NO_PLACE: u64 = 255;

// The cost at a position is lowered to this one, if that is less; a position past the last is passed over.
fn lower(costs: &mut [u64; POSITIONS], at: u64, cost: u64)
    ensures { costs.new ≡ lowered costs.old at cost }
{
    let at = at as usize;
    if at < POSITIONS {
        costs[at] = costs[at].min(cost);
    }
}

// The least cost of a place at each position of given text e.
fn least_costs(rows: Rows, e: usize) -> [u64; POSITIONS]
    requires { e < 8 }
    ensures { result ≡ least_costs rows.entry.numbers.now e rows.entry.count (replicate 65 255) }
{
    let mut costs = [NO_PLACE; POSITIONS];
    for row in rows.as_rows() {
        lower(&mut costs, row[POSITIONS_AT + e], row[COST_AT]);
    }
    costs
}

// Cuts from a place that costs so much, along given and wanted bytes as long as they are alike.
fn along(room: &mut [u64], from: u64, costs: &[u64], given: &[u8], wanted: &[u8])
    requires room_for_wanted { length wanted.now ≤ length room.old }
    requires a_cost_for_each_given { length given.now ≤ length costs.now }
    requires from_small { from ≤ 255 }
    requires costs_small { NoneAbove 255 costs.now }
    ensures { room.new ≡ along from costs.now given.now wanted.now room.old }
{
    // By number: of what is written through `iter_mut` in a zip a proof knows only how long it is. In one pass, since to count first how many bytes are alike
    // took up to a quarter longer, and a zip with its numbers an eighth.
    let both = given.len().min(wanted.len());
    for (d, byte) in given[..both].iter().enumerate() {
        if *byte != wanted[d] {
            return;
        }
        room[d] = room[d].min(cut_weight(from, costs[d]));
    }
}

// The weights of steps, and the columns that lie behind them one by one.
#[derive(Clone, Copy)]
struct Steps<'a> {
    weights: &'a [u64],
    behind: &'a [u64],
    ghost few: { length weights.now ≤ 64 },
    ghost nine_behind_each: { length behind.now ≡ 9 * length weights.now },
    ghost weights_small: { NoneAbove 4177 weights.now },
    ghost behind_small: { NoneAbove 65536 behind.now },
}

impl<'a> Steps<'a> {
    // The least of a step and what is needed behind it with k parts.
    fn least(self, k: usize) -> u64
        requires { k < 9 }
        ensures { result ≡ least_in k self.entry.weights.now self.entry.behind.now }
    {
        // A loop, since a fold would have to be told of each pair that its sum is small.
        let mut least = FAR;
        for (weight, column) in self.weights.iter().zip(self.behind.chunks_exact(COLUMN)) {
            least = least.min(weight + column[k]);
        }
        least
    }

    // What is needed with 0 to 8 parts; with none, no rule will do.
    fn column(self) -> [u64; COLUMN]
        ensures { result ≡ column_in self.entry.weights.now self.entry.behind.now }
    {
        array::from_fn(
            |k| -> u64
                requires { k < 9 }
                ensures { result ≡ needed_with self.entry.weights.now self.entry.behind.now k }
            { if k == 0 { FAR } else { self.least(k - 1) } },
        )
    }
}

// Lays down one column at a position.
fn put_column(out: &mut [u64], at: usize, column: [u64; COLUMN])
    requires room { at + 9 ≤ length out.old }
    requires one_guide_at_most { length out.old ≤ 585 }
    ensures { out.new ≡ with_column out.old at column }
{
    out[at..at + COLUMN].copy_from_slice(&column);
}

// One example alone, with the least cost of a place at each position of its given text.
#[derive(Clone, Copy)]
pub(crate) struct CostedExample<'a> {
    costs: &'a [u64; POSITIONS],
    given: &'a [u8],
    wanted: &'a [u8],
    ghost costs_small: { NoneAbove 255 costs.now },
    ghost given_short: { length given.now ≤ 64 },
    ghost wanted_short: { length wanted.now ≤ 64 },
}

impl<'a> CostedExample<'a> {
    // The same where the wanted text begins at a position.
    fn wanted_from(self, j: usize) -> CostedExample<'a>
        requires { j ≤ length self.wanted.now }
        ensures costs { result.costs.now ≡ self.entry.costs.now }
        ensures given { result.given.now ≡ self.entry.given.now }
        ensures wanted { result.wanted.now ≡ drop j self.entry.wanted.now }
    {
        CostedExample {
            costs: self.costs,
            given: self.given,
            wanted: &self.wanted[j..],
        }
    }

    // For each number of bytes from 1 on, the least weight of a part that makes so many of the wanted text.
    fn lay_steps(self, room: &mut [u64])
        requires { length room.old ≡ length self.wanted.now }
        ensures laid { room.new ≡ steps self.entry.costs.now self.entry.given.now self.entry.wanted.now }
        ensures small { NoneAbove 4177 room.new }
    {
        for (d, step) in room.iter_mut().enumerate() {
            *step = literal_weight(d as u64 + 1);
        }
        let CostedExample {
            costs,
            given,
            wanted,
        } = self;
        // By number, since the costs and the given text are cut at x.
        for x in 0..given.len() {
            along(room, costs[x], &costs[x + 1..], &given[x..], wanted);
        }
    }

    // The column before those that lie behind.
    fn column(self, behind: &[u64]) -> [u64; COLUMN]
        requires nine_behind_each { length behind.now ≡ 9 * length self.wanted.now }
        requires behind_small { NoneAbove 65536 behind.now }
        ensures { result ≡ column_in (steps self.entry.costs.now self.entry.given.now self.entry.wanted.now) behind.now }
    {
        let mut room = [0u64; MOST_BYTES];
        let weights = &mut room[..self.wanted.len()];
        self.lay_steps(weights);
        Steps { weights, behind }.column()
    }

    // Lays down the columns, from the end of the wanted text to its beginning.
    fn lay_guide(self, out: &mut [u64])
        requires { length out.old ≡ 585 }
        ensures { out.new ≡ laid_columns (columns self.entry.costs.now self.entry.given.now self.entry.wanted.now) out.old }
    {
        let end = COLUMN * self.wanted.len();
        put_column(out, end, [0; COLUMN]);
        // By number, since j is where the wanted text is cut, and where its column lies.
        for j in (0..self.wanted.len()).rev() {
            let at = COLUMN * j;
            let column = self.wanted_from(j).column(&out[at + COLUMN..end + COLUMN]);
            put_column(out, at, column);
        }
    }
}

// Lays down the guides of all examples, those of one behind those of the other.
pub(crate) fn lay_guides(out: &mut [u64], rows: Rows, question: Question)
    requires { length out.old ≡ 4680 }
    ensures { out.new ≡ guides_laid (all_costs rows.entry.numbers.now rows.entry.count) (examples_of question.entry) (length question.entry.examples.now) out.old }
{
    // By number: of what is written through the library's chunks a proof knows only how long it is.
    for (e, example) in question.examples.iter().enumerate() {
        let costs = least_costs(rows, e);
        let costed = CostedExample {
            costs: &costs,
            given: example.given,
            wanted: example.wanted,
        };
        costed.lay_guide(&mut out[GUIDE * e..GUIDE * e + GUIDE]);
    }
}
