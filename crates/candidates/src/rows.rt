// The rows of places, read from the numbers that they lie in.
ghost use Rattle.std.specs.Prelude.{◌≡◌, ◌+◌, ◌<◌, ◌≤◌, length};
ghost use Rattle.std.specs.Simd.{first_chunks};
ghost use Rattle.candidates.specs.RowTable.{row_number, place_says, table_size, most_rows};

use crate::memory::{COST_AT, POSITIONS_AT, ROW};
use crate::row::Row;

// Beside `Table`, which fills it, as a `&` is beside a `&mut`.
#[derive(Clone, Copy)]
pub(crate) struct Rows<'a> {
    pub numbers: &'a [u64],
    pub count: usize,
    ghost size: { length numbers.now ≡ table_size },
    ghost few: { count ≤ most_rows },
}

impl<'a> Rows<'a> {
    // The rows, each as an array.
    pub fn as_rows(self) -> &'a [Row]
        ensures value { result.now ≡ first_chunks 16 self.entry.count self.entry.numbers.now }
        ensures len { length result.now ≡ self.entry.count }
    {
        &self.numbers.as_chunks().0[..self.count]
    }

    // The numbers that say the place of a row.
    pub fn place(self, row: usize) -> [u64; 5]
        requires { row < most_rows }
        ensures { result ≡ place_says self.entry.numbers.now row }
    {
        let from = ROW * row;
        [
            self.numbers[from],
            self.numbers[from + 1],
            self.numbers[from + 2],
            self.numbers[from + 3],
            self.numbers[from + 4],
        ]
    }

    // What the place of a row costs.
    pub fn cost(self, row: usize) -> u64
        requires { row < most_rows }
        ensures { result ≡ row_number self.entry.numbers.now row 5 }
    {
        self.numbers[ROW * row + COST_AT]
    }

    // Where a row lies in given text e.
    pub fn at(self, row: usize, e: usize) -> u64
        requires row { row < most_rows }
        requires one_of_eight { e < 8 }
        ensures { result ≡ row_number self.entry.numbers.now row (6 + e) }
    {
        self.numbers[ROW * row + (POSITIONS_AT + e)]
    }
}
