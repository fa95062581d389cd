// How a rule is spelled in bytes.
ghost use Rattle.std.specs.Prelude.{◌≡◌, ◌≤◌, true, length};
ghost use Rattle.rules.specs.Answers.{written_told, written_left};
ghost use Rattle.rules.specs.Lists.{flat};
ghost use Rattle.rules.specs.Order.{place_spelled, part_spelled, rule_spelled};
ghost use Rattle.rules.specs.Rules.{bytes, cut, a_part};
ghost use Rattle.rules.specs.Values.{the_place, the_part};
ghost use Rattle.rules.specs.Held.{the_rule};
ghost use Rattle.rules.specs.Writing.{the_writing, Writes, HasRoom};

use crate::part::{Cut, Part};
use crate::place::Place;
use crate::room::{NoRoom, Writer};
use crate::rule::Rule;

// How many bytes a place is spelled with.
#[tactic(auto, unfolding(crate::specs::Order::place_spelled))]
fn place_length(place: Place) -> usize
    ensures value { result ≡ length (place_spelled (the_place place)) }
    ensures bound { result ≤ 7 }
{
    match place {
        Place::FromFirst(_) | Place::FromLast(_) => 2,
        Place::NthOf { .. } => 7,
    }
}

// How many bytes a part is spelled with.
#[tactic(auto, using(crate::proofs::SumOverParts::literal_few), unfolding(crate::specs::Order::part_spelled))]
fn part_length(part: &Part) -> usize
    requires { a_part (the_part part.now) ≡ true }
    ensures value { result ≡ length (part_spelled (the_part part.now)) }
    ensures bound { result ≤ 66 }
{
    match part {
        Part::Bytes(literal) => 2 + literal.len(),
        Part::Cut(cut) => 1 + (place_length(cut.from) + place_length(cut.to)),
    }
}

impl Rule {
    // How many bytes the parts are spelled with.
    fn parts_length(&self) -> usize
        ensures value { result ≡ length (flat part_spelled (the_rule self.now)) }
        ensures bound { result ≤ 528 }
    {
        let parts = self.parts();
        let mut total = 0;
        for part in parts {
            total += part_length(part);
        }
        total
    }
}

impl<'a> Writer<'a> {
    // Spells a place.
    #[tactic(auto, unfolding(crate::specs::Order::place_spelled))]
    fn put_place(&mut self, place: Place)
        requires { HasRoom (the_writing self.old) (place_spelled (the_place place)) }
        ensures { Writes self.old self.new (place_spelled (the_place place)) }
    {
        match place {
            Place::FromFirst(n) => self.put(&[0, n]),
            Place::FromLast(n) => self.put(&[1, n]),
            Place::NthOf { sides, n, back } => {
                let [a, b] = u16::from(sides.left).to_be_bytes();
                let [c, d] = u16::from(sides.right).to_be_bytes();
                self.put(&[2, a, b, c, d, n, back as u8]);
            }
        }
    }

    // Spells a literal.
    fn put_literal(&mut self, literal: &[u8])
        requires few { length literal.now ≤ 64 }
        requires room { HasRoom (the_writing self.old) (part_spelled (bytes literal.now)) }
        ensures { Writes self.old self.new (part_spelled (bytes literal.now)) }
    {
        self.put(&[0, literal.len() as u8]);
        self.put(literal);
    }

    // Spells a cut.
    fn put_cut(&mut self, pair: Cut)
        requires { HasRoom (the_writing self.old) (part_spelled (cut (the_place pair.from) (the_place pair.to))) }
        ensures { Writes self.old self.new (part_spelled (cut (the_place pair.from) (the_place pair.to))) }
    {
        self.put(&[1]);
        self.put_place(pair.from);
        self.put_place(pair.to);
    }

    // Spells a part.
    #[tactic(auto, using(crate::proofs::SumOverParts::literal_few))]
    fn put_part(&mut self, part: &Part)
        requires part { a_part (the_part part.now) ≡ true }
        requires room { HasRoom (the_writing self.old) (part_spelled (the_part part.now)) }
        ensures { Writes self.old self.new (part_spelled (the_part part.now)) }
    {
        match part {
            Part::Bytes(literal) => self.put_literal(literal),
            Part::Cut(pair) => self.put_cut(*pair),
        }
    }

    // Spells the parts of a rule.
    fn put_parts(&mut self, rule: &Rule)
        requires { HasRoom (the_writing self.old) (flat part_spelled (the_rule rule.now)) }
        ensures { Writes self.old self.new (flat part_spelled (the_rule rule.now)) }
    {
        let parts = rule.parts();
        for part in parts {
            self.put_part(part);
        }
    }
}

impl Rule {
    // Spells the rule, the number of its parts in front, and says with how many bytes. Where there is no room, `out` is as it was.
    pub fn spelled(&self, out: &mut [u8]) -> Result<usize, NoRoom>
        ensures value { result ≡ written_told (rule_spelled (the_rule self.now)) (length out.old) }
        ensures after { out.new ≡ written_left (rule_spelled (the_rule self.now)) out.old }
    {
        if out.len() < 1 + self.parts_length() {
            return Err(NoRoom);
        }
        let mut writer = Writer::new(out);
        writer.put(&[self.parts().len() as u8]);
        writer.put_parts(self);
        Ok(writer.at())
    }
}
