// The spelling of a rule read back.
ghost use Rattle.std.specs.Prelude.{◌≡◌, true, false, MatchResult, ◌==◌, nat_le};
ghost use Rattle.rules.specs.Rules.{bytes as literal, cut, a_kind};
ghost use Rattle.rules.specs.declared.fault.Fault.TheVariants.{KindNumber, Tag};
ghost use Rattle.rules.specs.Reading.{number, read_as, read_byte, read_nth, read_place, read_cut, read_literal, read_part, read_parts, read_counted, read_rule, ReadSo, RuleRead};
ghost use Rattle.rules.specs.Values.{kind_number, the_place, the_part, the_parts};

use crate::fault::Fault;
use crate::kind::Kind;
use crate::part::{Cut, Part};
use crate::place::Place;
use crate::rule::Rule;
use crate::sides::Sides;
use std::alloc::Global;

// What was read at the front of some bytes, and the bytes behind it; or what is wrong.
type Reading<'a, T> = Result<(T, &'a [u8]), Fault>;

#[tactic(auto, using(crate::proofs::ReadsBytes::byte_read))]
fn read_byte(bytes: &[u8]) -> Reading<'_, u8>
    ensures { read_as (λ b. b) result ≡ read_byte bytes.now }
{
    let [byte, rest @ ..] = bytes else {
        return Err(Fault::EndsEarly);
    };
    Ok((*byte, rest))
}

// The kind whose number two bytes spell, the higher first.
fn read_kind(high: u8, low: u8) -> Result<Kind, Fault>
    ensures { MatchResult result (λ k. (kind_number k ≡ number high low) × (a_kind (number high low) ≡ true)) (λ f. (f ≡ KindNumber (number high low)) × (a_kind (number high low) ≡ false)) }
{
    let number = u16::from_be_bytes([high, low]);
    Kind::try_from(u64::from(number)).map_err(|_| Fault::KindNumber(number))
}

// Whether a byte says that places are counted from the end.
fn read_back(byte: u8) -> Result<bool, Fault>
    ensures { MatchResult result (λ b. (b ≡ (byte == 1)) × (nat_le byte 1 ≡ true)) (λ f. (f ≡ Tag byte) × (nat_le byte 1 ≡ false)) }
{
    match byte {
        0 => Ok(false),
        1 => Ok(true),
        _ => Err(Fault::Tag(byte)),
    }
}

#[tactic(auto, using(crate::proofs::ReadsBytes::nth_told))]
fn read_nth(bytes: &[u8]) -> Reading<'_, Place>
    ensures { read_as the_place result ≡ read_nth bytes.now }
{
    let [a, b, c, d, n, back, rest @ ..] = bytes else {
        return Err(Fault::EndsEarly);
    };
    let sides = Sides {
        left: read_kind(*a, *b)?,
        right: read_kind(*c, *d)?,
    };
    let back = read_back(*back)?;
    Ok((Place::NthOf { sides, n: *n, back }, rest))
}

fn read_place(bytes: &[u8]) -> Reading<'_, Place>
    ensures { read_as the_place result ≡ read_place bytes.now }
{
    let (tag, rest) = read_byte(bytes)?;
    match tag {
        0 => {
            let (n, end) = read_byte(rest)?;
            Ok((Place::FromFirst(n), end))
        }
        1 => {
            let (n, end) = read_byte(rest)?;
            Ok((Place::FromLast(n), end))
        }
        2 => read_nth(rest),
        _ => Err(Fault::Tag(tag)),
    }
}

fn read_cut(bytes: &[u8]) -> Reading<'_, Cut>
    ensures { read_as (λ c. cut (the_place c.from) (the_place c.to)) result ≡ read_cut bytes.now }
{
    let (from, rest) = read_place(bytes)?;
    let (to, end) = read_place(rest)?;
    Ok((Cut { from, to }, end))
}

// A literal, as a slice of the spelling.
fn read_literal(bytes: &[u8]) -> Reading<'_, &[u8]>
    ensures { read_as (λ s. literal s.now) result ≡ read_literal bytes.now }
{
    let (n, rest) = read_byte(bytes)?;
    rest.split_at_checked(n as usize).ok_or(Fault::EndsEarly)
}

fn read_part(heap: Global, bytes: &[u8]) -> Reading<'_, Part>
    ensures { ReadSo the_part result (read_part bytes.now) }
{
    let (tag, rest) = read_byte(bytes)?;
    match tag {
        0 => {
            let (literal, end) = read_literal(rest)?;
            Ok((Part::Bytes(literal.to_vec(heap)?), end))
        }
        1 => {
            let (cut, end) = read_cut(rest)?;
            Ok((Part::Cut(cut), end))
        }
        _ => Err(Fault::Tag(tag)),
    }
}

fn read_parts(heap: Global, count: u8, bytes: &[u8]) -> Reading<'_, Vec<Part>>
    ensures { ReadSo (λ v. the_parts v.items) result (read_parts count bytes.now) }
{
    let mut parts = Vec::new(heap);
    let mut rest = bytes;
    for _ in 0..count {
        let (part, end) = read_part(heap, rest)?;
        parts.push(part)?;
        rest = end;
    }
    Ok((parts, rest))
}

// The number of the parts, and the parts.
fn read_counted(heap: Global, bytes: &[u8]) -> Reading<'_, Vec<Part>>
    ensures { ReadSo (λ v. the_parts v.items) result (read_counted bytes.now) }
{
    let (count, rest) = read_byte(bytes)?;
    if count > 8 {
        return Err(Fault::PartCount(count as usize));
    }
    read_parts(heap, count, rest)
}

impl Rule {
    // The rule that is spelled so, or what is wrong with the spelling.
    pub fn from_spelling(heap: Global, bytes: &[u8]) -> Result<Rule, Fault>
        ensures { RuleRead result (read_rule bytes.now) }
    {
        let (parts, rest) = read_counted(heap, bytes)?;
        if !rest.is_empty() {
            return Err(Fault::LeftOver(rest.len()));
        }
        Rule::new(parts)
    }
}
