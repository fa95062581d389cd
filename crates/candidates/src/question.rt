// What a problem is laid down for: some examples, and a text that may be asked about.
ghost use Rattle.std.specs.Prelude.{◌≡◌, ◌≤◌, true, length};
ghost use Rattle.rules.specs.Lists.{every};
ghost use Rattle.candidates.specs.Rows.{short_example};
ghost use Rattle.candidates.specs.Values.{the_examples};

use crate::example::Example;

#[derive(Clone, Copy)]
pub(crate) struct Question<'a> {
    pub(crate) examples: &'a [Example<'a>],
    pub(crate) asked: Option<&'a [u8]>,
    ghost few: { length examples.now ≤ 8 },
    ghost short: { every short_example (the_examples examples.now) ≡ true },
}
