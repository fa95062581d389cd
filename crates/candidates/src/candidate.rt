// A candidate part: a literal of the next bytes of the first wanted text, or a cut by two rows.
// Anyone can make one, so each function that takes one says in a clause that its numbers are in range.
#[derive(Clone, Copy)]
pub enum Candidate<'a> {
    // The next bytes of the first wanted text.
    Literal(&'a [u64]),
    // From where the one row lies to where the other does.
    Cut { from: usize, to: usize },
}
