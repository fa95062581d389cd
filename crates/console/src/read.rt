// Rules read from text.
ghost use Rattle.std.specs.Prelude.{◌≡◌, [], vec_items, IfOk, IfErr, MatchResult};
ghost use Rattle.rules.specs.Values.{the_part, the_parts};
ghost use Rattle.console.specs.Reading.{read, failed, read_literal, read_cut, read_part, read_end, read_rule};
ghost use Rattle.console.specs.Told.{Tells, TellsMade, TellsAll, Stops, Refuses};
ghost use Rattle.rules.specs.Held.{the_rule};

use crate::expected::Expected;
use crate::failed::{Failed, Stopped};
use crate::not_a_rule::NotARule;
use crate::read_place::read_place;
use crate::scan::{Reading, expect, read_byte, strip};
use crate::words;
use rules::{Cut, Part, Rule};
use std::alloc::Global;

// What follows the opening quote of a literal: 1 to 64 bytes, and the closing quote.
#[tactic(auto, using(crate::proofs::StepsRead::bytes_steps), unfolding(crate::specs::Reading::read_literal))]
fn read_literal(heap: Global, text: &[u8]) -> Reading<'_, Vec<u8>, Stopped>
    ensures { TellsMade vec_items (read_literal text.now) result }
{
    let (first, mut rest) = read_byte(text)?;
    let mut bytes = Vec::new(heap);
    bytes.push(first)?;
    for _ in 0..63u8 {
        if let Some(after) = strip(b"\"", rest) {
            return Ok((bytes, after));
        }
        let (byte, after) = read_byte(rest)?;
        bytes.push(byte)?;
        rest = after;
    }
    let rest = expect(b"\"", rest, Expected::Quote)?;
    Ok((bytes, rest))
}

// What follows "from ".
#[tactic(auto, unfolding(crate::specs::Reading::read_cut))]
fn read_cut(text: &[u8]) -> Reading<'_, Part>
    ensures { Tells the_part (read_cut text.now) result }
{
    let (from, rest) = read_place(text)?;
    let rest = expect(words::to_words(from), rest, Expected::To)?;
    let (to, rest) = read_place(rest)?;
    Ok((Part::Cut(Cut { from, to }), rest))
}

#[tactic(auto, unfolding(crate::specs::Reading::read_part))]
fn read_part(heap: Global, text: &[u8]) -> Reading<'_, Part, Stopped>
    ensures { TellsMade the_part (read_part text.now) result }
{
    if let Some(rest) = strip(b"\"", text) {
        let (bytes, rest) = read_literal(heap, rest)?;
        return Ok((Part::Bytes(bytes), rest));
    }
    let rest = expect(b"from ", text, Expected::Part)?;
    Ok(read_cut(rest)?)
}

// Whether the text ends here, as it has to.
fn read_end(text: &[u8]) -> Result<(), Failed>
    ensures ended { IfOk result (λ _. text.now ≡ []) }
    ensures goes_on { IfErr result (λ f. (so_far : _) → read_end so_far text.now ≡ failed f.left f.expected) }
{
    if text.is_empty() {
        Ok(())
    } else {
        Err(Failed::at(text, Expected::End))
    }
}

#[tactic(auto, using(crate::proofs::StepsRead::parts_steps), unfolding(crate::specs::Reading::read_rule))]
fn read_parts(heap: Global, text: &[u8]) -> Result<Vec<Part>, Stopped>
    ensures { TellsAll (λ v. the_parts v.items) (read_rule text.now) result }
{
    if let Some(rest) = strip(b"no parts", text) {
        read_end(rest)?;
        return Ok(Vec::new(heap));
    }
    let (first, mut rest) = read_part(heap, text)?;
    let mut parts = Vec::new(heap);
    parts.push(first)?;
    for _ in 0..7u8 {
        let Some(after) = strip(b"; ", rest) else {
            break;
        };
        let (part, after) = read_part(heap, after)?;
        parts.push(part)?;
        rest = after;
    }
    read_end(rest)?;
    Ok(parts)
}

// Why the text is refused, where reading it stopped.
#[tactic(auto, using(crate::proofs::ReadsRules::fails_within, crate::proofs::ReadsRules::fails_at))]
fn refused(text: &[u8], stopped: Stopped) -> NotARule
    requires { Stops (read_rule text.now) stopped }
    ensures { Refuses text.now result }
{
    match stopped {
        Stopped::Failed(failed) => NotARule::At {
            byte: text.len() - failed.left,
            expected: failed.expected,
        },
        Stopped::Memory => NotARule::Memory,
    }
}

// The rule that the text is, or why it is none.
#[tactic(auto, using(crate::proofs::ReadsRules::read_faultless))]
pub fn read_rule(heap: Global, text: &[u8]) -> Result<Rule, NotARule>
    ensures { MatchResult result (λ rule. read_rule text.now ≡ read (the_rule rule) []) (Refuses text.now) }
{
    let parts = read_parts(heap, text).map_err(|stopped| refused(text, stopped))?;
    // Parts that are read are within their limits, so they make a rule.
    Ok(Rule::new(parts).unwrap())
}
