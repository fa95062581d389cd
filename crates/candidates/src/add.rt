// A row is added to a table: rows that lie alike are kept once, the cheapest of them.
ghost use Rattle.std.specs.Prelude.{◌≡◌, ◌-◌, ◌<◌, ◌+◌, length};
ghost use Rattle.std.specs.Simd.{first_chunks};
ghost use Rattle.candidates.specs.RowTable.{with_row, in_place_of, added, table_size, most_rows};
ghost use Rattle.candidates.specs.Tables.{the_table, Becomes, IsFirstAlike};

use crate::memory::{COST_AT, MOST_ROWS, ROW};
use crate::row::{Row, lie_alike};
use crate::rows::Rows;
use crate::table::Table;

impl<'a> Table<'a> {
    // An empty table.
    pub(crate) fn of(numbers: &'a mut [u64]) -> Table<'a>
        requires { length numbers.old ≡ table_size }
        ensures same_reference { result.numbers.ghost_name ≡ numbers.entry.ghost_name }
        ensures empty { the_table result ≡ record { numbers = numbers.old; rows = 0 } }
    {
        Table { numbers, rows: 0 }
    }

    // Its rows.
    fn as_rows(&self) -> &[Row]
        ensures value { result.now ≡ first_chunks 16 self.now.rows self.now.numbers.now }
        ensures len { length result.now ≡ self.now.rows }
    {
        let rows = Rows {
            numbers: self.numbers,
            count: self.rows,
        };
        rows.as_rows()
    }

    // The first row that lies like another one.
    fn first_alike(&self, row: &Row) -> Option<usize>
        ensures { IsFirstAlike (the_table self.now) row.now result }
    {
        self.as_rows()
            .iter()
            .position(|other| lie_alike(other, row))
    }

    // Replaces the numbers of row i.
    fn put(&mut self, i: usize, row: &Row)
        requires room { i < most_rows }
        ensures { Becomes self.old self.new (record { numbers = with_row self.old.numbers.now i row.now; rows = self.old.rows }) }
    {
        self.numbers[ROW * i..ROW * (i + 1)].copy_from_slice(row);
    }

    // Takes row i out, and puts another one behind the others.
    fn put_in_place_of(&mut self, i: usize, row: &Row)
        requires row { i < self.old.rows }
        ensures { Becomes self.old self.new (in_place_of (the_table self.old) i row.now) }
    {
        self.numbers
            .copy_within(ROW * (i + 1)..ROW * self.rows, ROW * i);
        self.put(self.rows - 1, row);
    }

    // Adds a row: in place of one that lies like it if it is cheaper, and else behind the others if none lies like it.
    pub(crate) fn add(&mut self, row: &Row)
        ensures { Becomes self.old self.new (added (the_table self.old) row.now) }
    {
        if let Some(i) = self.first_alike(row) {
            if row[COST_AT] < self.as_rows()[i][COST_AT] {
                self.put_in_place_of(i, row);
            }
        } else if self.rows < MOST_ROWS {
            self.put(self.rows, row);
            self.rows += 1;
        }
    }
}
