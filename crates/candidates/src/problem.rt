// A problem in memory: some examples, the rows of their places and the guide.
ghost use Rattle.std.specs.Prelude.{◌≡◌, ◌≤◌, length};

use crate::rows::Rows;

// A view of the numbers of a problem.
#[derive(Clone, Copy)]
pub struct Problem<'a> {
    pub(crate) examples: usize,
    pub(crate) rows: Rows<'a>,
    pub(crate) texts: &'a [u64],
    pub(crate) guide: &'a [u64],
    ghost few: { examples ≤ 8 },
    ghost long: { length texts.now ≡ 1170 },
    ghost wide: { length guide.now ≡ 4680 },
}
