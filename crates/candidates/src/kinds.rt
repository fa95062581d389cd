// The kinds that stand in a text.
ghost use Rattle.std.specs.Prelude.{◌≡◌};
ghost use Rattle.rules.specs.Lists.{each};
ghost use Rattle.rules.specs.Values.{kind_number};
ghost use Rattle.candidates.specs.Places.{stands_in, kinds_in};

use arrayvec::ArrayVec;
use rules::Kind;

// Whether the text has a byte of the kind; anything stands in every text.
fn stands_in(text: &[u8], kind: Kind) -> bool
    ensures { result ≡ stands_in text.now (kind_number kind) }
{
    kind == Kind::Anything || text.iter().any(|byte| kind.has(*byte))
}

// The kinds that stand in the text, in the order of their numbers.
pub(crate) fn kinds_in(text: &[u8]) -> ArrayVec<Kind, 512>
    ensures { each kind_number result.items ≡ kinds_in text.now }
{
    let mut kinds = ArrayVec::new();
    for number in 0..512 {
        if let Ok(kind) = Kind::try_from(number) {
            if stands_in(text, kind) {
                kinds.push(kind);
            }
        }
    }
    kinds
}
