// A table of rows in lent numbers, one row behind the other.
ghost use Rattle.std.specs.Prelude.{◌≡◌, ◌≤◌, length};
ghost use Rattle.candidates.specs.RowTable.{table_size, most_rows};

#[derive(Drop)]
pub(crate) struct Table<'a> {
    pub(crate) numbers: &'a mut [u64],
    pub(crate) rows: usize,
    ghost size: { length numbers.now ≡ table_size },
    ghost few: { rows ≤ most_rows },
}
