// A whole search: begun, and advanced until it ends.
ghost use Rattle.std.specs.Prelude.{◌≡◌, length, Some, IfOk, IfErr};
ghost use Rattle.search.specs.Memory.{memory_size};
ghost use Rattle.candidates.specs.Values.{the_examples};
ghost use Rattle.search.specs.MemoryPromises.{CarriedOut};
ghost use Rattle.search.specs.Refusals.{refusal_of};
ghost use Rattle.search.specs.Searched.{lent, the_memory};

use crate::refusal::Refusal;
use crate::search::Search;
use crate::status::Status;
use candidates::Example;

// How the search ends for the first rule that does the examples, in memory that is lent for it; the memory then has the rule.
pub fn find(memory: &mut [u64], examples: &[Example]) -> Result<Status, Refusal>
    requires { length memory.old ≡ memory_size }
    ensures ended { IfOk result (CarriedOut (the_examples examples.now) memory.old memory.new) }
    ensures refused { IfErr result (λ refusal. refusal_of (the_examples examples.now) ≡ Some refusal) }
    ensures unchanged { IfErr result (λ _. memory.new ≡ memory.old) }
{
    Search::over(memory).find(examples)
}

impl Search<'_> {
    // How the search for the first rule that does the examples ends; the memory then has the rule. That it ends is proved, and not how soon.
    pub fn find(&mut self, examples: &[Example]) -> Result<Status, Refusal>
        ensures same_reference { (lent self.new).ghost_name ≡ (lent self.old).ghost_name }
        ensures ended { IfOk result (CarriedOut (the_examples examples.now) (the_memory self.old) (the_memory self.new)) }
        ensures refused { IfErr result (λ refusal. refusal_of (the_examples examples.now) ≡ Some refusal) }
        ensures unchanged { IfErr result (λ _. the_memory self.new ≡ the_memory self.old) }
    {
        self.begin(examples)?;
        loop {
            match self.advance() {
                Status::Going => {}
                ended => return Ok(ended),
            }
        }
    }
}
