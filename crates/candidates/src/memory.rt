// How a problem lies in memory: counts of numbers, and where parts begin.

pub const MOST_EXAMPLES: usize = 8;

// A state: how far each wanted text has been made, one number for each of up to eight examples, and one more.
pub const STATE: usize = MOST_EXAMPLES + 1;

pub type State = [u64; STATE];

pub(crate) const MOST_BYTES: usize = 64;

pub(crate) const MOST_ROWS: usize = 6500;

// An example: how long its given text is, and its wanted one, then room for both.
pub(crate) const GIVEN_AT: usize = 2;

pub(crate) const WANTED_AT: usize = GIVEN_AT + MOST_BYTES;

pub(crate) const EXAMPLE: usize = WANTED_AT + MOST_BYTES;

// A guide: a column for each position of a wanted text, with a number for each number of parts from 0 to 8.
pub(crate) const POSITIONS: usize = MOST_BYTES + 1;

pub(crate) const COLUMN: usize = 9;

pub(crate) const GUIDE: usize = POSITIONS * COLUMN;

// A row: five numbers that say a place, what that costs, where it lies in eight given texts and in the asked one, and 0.
pub(crate) const COST_AT: usize = 5;

pub(crate) const POSITIONS_AT: usize = 6;

pub(crate) const ASKED_AT: usize = POSITIONS_AT + MOST_EXAMPLES;

pub(crate) const ROW: usize = 16;

// A problem: how many examples and rows there are, with room; the examples and the asked text, the guides and the rows.
pub(crate) const EXAMPLE_COUNT_AT: usize = 0;

pub(crate) const ROW_COUNT_AT: usize = 1;

pub(crate) const TEXTS_AT: usize = 16;

pub(crate) const GUIDES_AT: usize = TEXTS_AT + (MOST_EXAMPLES + 1) * EXAMPLE;

pub(crate) const ROWS_AT: usize = GUIDES_AT + MOST_EXAMPLES * GUIDE;

pub const PROBLEM: usize = ROWS_AT + MOST_ROWS * ROW;
