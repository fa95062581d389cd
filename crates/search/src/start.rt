// A search is begun on examples.
ghost use Rattle.std.specs.Prelude.{◌≡◌};
ghost use Rattle.candidates.specs.Values.{the_examples};
ghost use Rattle.search.specs.Begun.{begun_in, told_by, left_by};
ghost use Rattle.search.specs.Refusals.{refusal_of};
ghost use Rattle.search.specs.Searched.{the_memory, Becomes};

use crate::refusal::{Refusal, check_examples};
use crate::search::Search;
use candidates::Example;

impl Search<'_> {
    // Begins a search for the first rule that does the examples. If these are refused, the memory stays as it was.
    pub fn begin(&mut self, examples: &[Example]) -> Result<(), Refusal>
        ensures told { result ≡ told_by (refusal_of (the_examples examples.now)) }
        ensures becomes { let es = the_examples examples.now in
            Becomes self.old self.new (left_by (refusal_of es) (begun_in es (the_memory self.old)) (the_memory self.old)) }
    {
        check_examples(examples)?;
        self.lay(examples);
        let seen = self.seen();
        let mut machine = seen.machine();
        machine.begin(seen.problem());
        self.keep(&machine);
        Ok(())
    }
}
