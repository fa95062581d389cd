// A part of a rule: some bytes, or what is cut from the text.
ghost use Rattle.std.specs.Prelude.{◌≡◌, true, length, OnOk};
ghost use Rattle.rules.specs.Faults.{checked, part_fault, literal_fault};
ghost use Rattle.rules.specs.Rules.{bytes, a_part};
ghost use Rattle.rules.specs.Values.{the_part};

use crate::fault::Fault;
use crate::place::Place;

// A pair of places: from the one to the other.
#[derive(Clone, Copy, PartialEq, Eq, Debug)]
pub struct Cut {
    pub from: Place,
    pub to: Place,
}

#[derive(PartialEq, Eq, Debug, Drop)]
pub enum Part {
    Bytes(Vec<u8>),
    Cut(Cut),
}

// Whether a literal has as many bytes as it may have.
#[tactic(auto, using(crate::proofs::FaultsTell::literal_right, crate::proofs::FaultsTell::bytes_right))]
fn check_literal(literal: &[u8]) -> Result<(), Fault>
    ensures value { result ≡ checked (literal_fault (length literal.now)) }
    ensures right { OnOk result (a_part (bytes literal.now) ≡ true) }
{
    match literal.len() {
        1..=64 => Ok(()),
        n => Err(Fault::LiteralLength(n)),
    }
}

impl Part {
    // Whether this is a part that a rule may have, and if not, what is wrong with it.
    #[tactic(auto, unfolding(crate::specs::Rules::a_part))]
    pub fn check(&self) -> Result<(), Fault>
        ensures value { result ≡ checked (part_fault (the_part self.now)) }
        ensures right { OnOk result (a_part (the_part self.now) ≡ true) }
    {
        match self {
            Part::Bytes(literal) => check_literal(literal),
            Part::Cut(cut) => {
                cut.from.check()?;
                cut.to.check()
            }
        }
    }
}
