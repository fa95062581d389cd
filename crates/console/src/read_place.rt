// Places read from text.
ghost use Rattle.std.specs.Prelude.{◌≡◌, [], ◌∷◌, ◌==◌};
ghost use Rattle.rules.specs.Lists.{pick};
ghost use Rattle.rules.specs.Values.{kind_number, the_place};
ghost use Rattle.console.specs.declared.expected.Expected.TheVariants.{Named, Edge};
ghost use Rattle.console.specs.Reading.{read_sign, read_run, read_kind, read_behind, read_sides};
ghost use Rattle.console.specs.Reading.{read_word, read_ordinal, read_later, read_edge, read_count, read_the, read_place};
ghost use Rattle.console.specs.Told.{Tells};

use crate::expected::Expected;
use crate::failed::Failed;
use crate::scan::{Reading, begins_number, expect, read_byte, read_number, strip};
use crate::words;
use rules::{Kind, Place, Sides};

// What follows the opening quote of a sign.
#[tactic(auto, unfolding(crate::specs::Reading::read_sign))]
fn read_sign(text: &[u8]) -> Reading<'_, Kind>
    ensures { Tells kind_number (read_sign text.now) result }
{
    let (byte, rest) = read_byte(text)?;
    let rest = expect(b"\"", rest, Expected::Quote)?;
    Ok((Kind::Sign(byte), rest))
}

// That a run of a kind ends, or begins.
#[tactic(auto, using(crate::proofs::RunsRead::run_none))]
fn read_run(ends: bool, text: &[u8]) -> Reading<'_, Kind>
    ensures { Tells kind_number (read_run ends (1 ∷ 2 ∷ 3 ∷ 4 ∷ 5 ∷ []) text.now) result }
{
    for kind in [
        Kind::Digits,
        Kind::Letters,
        Kind::Capitals,
        Kind::SmallLetters,
        Kind::Blanks,
    ] {
        if let Some(rest) = strip(words::run_words(ends, kind), text) {
            return Ok((kind, rest));
        }
    }
    Err(Failed::at(text, Expected::Kind))
}

// What ends or begins at a place.
#[tactic(auto, unfolding(crate::specs::Reading::read_kind))]
fn read_kind(ends: bool, text: &[u8]) -> Reading<'_, Kind>
    ensures { Tells kind_number (read_kind ends text.now) result }
{
    match strip(b"there's a \"", text) {
        Some(rest) => read_sign(rest),
        None => read_run(ends, text),
    }
}

// What may stand behind a place, after what is before it.
#[tactic(auto, unfolding(crate::specs::Reading::read_behind))]
fn read_behind(left: Kind, n: u8, back: bool, text: &[u8]) -> Reading<'_, Place>
    ensures { Tells the_place (read_behind (kind_number left) n back text.now) result }
{
    let (right, rest) = match strip(b", and behind which ", text) {
        Some(rest) => read_kind(false, rest)?,
        None => (Kind::Anything, text),
    };
    let sides = Sides { left, right };
    Ok((Place::NthOf { sides, n, back }, rest))
}

// What stands before the nth place, behind it, or both.
#[tactic(auto, unfolding(crate::specs::Reading::read_sides))]
fn read_sides(n: u8, back: bool, text: &[u8]) -> Reading<'_, Place>
    ensures { Tells the_place (read_sides n back text.now) result }
{
    if let Some(rest) = strip(b"before which ", text) {
        let (left, rest) = read_kind(true, rest)?;
        return read_behind(left, n, back, rest);
    }
    let rest = expect(b"behind which ", text, Expected::Side)?;
    let (right, rest) = read_kind(false, rest)?;
    let sides = Sides {
        left: Kind::Anything,
        right,
    };
    Ok((Place::NthOf { sides, n, back }, rest))
}

// Which way the nth place is counted, and the rest of it.
#[tactic(auto, unfolding(crate::specs::Reading::read_word))]
fn read_word(n: u8, text: &[u8]) -> Reading<'_, Place>
    ensures { Tells the_place (read_word n text.now) result }
{
    if let Some(rest) = strip(words::later_place(false), text) {
        return read_sides(n, false, rest);
    }
    let rest = expect(words::later_place(true), text, Expected::PlaceWord)?;
    read_sides(n, true, rest)
}

// What follows the number of an nth place.
#[tactic(auto, unfolding(crate::specs::Reading::read_ordinal))]
fn read_ordinal(n: u8, text: &[u8]) -> Reading<'_, Place>
    ensures { Tells the_place (read_ordinal n text.now) result }
{
    let rest = expect(words::ordinal_end(n), text, Expected::OrdinalEnd)?;
    read_word(n, rest)
}

// The nth place from the second on.
#[tactic(auto, unfolding(crate::specs::Reading::read_later))]
fn read_later(text: &[u8]) -> Reading<'_, Place>
    ensures { Tells the_place (read_later text.now) result }
{
    let (n, rest) = read_number(text)?;
    if n == 1 {
        return Err(Failed::at(text, Expected::LaterNumber));
    }
    read_ordinal(n, rest)
}

// What is expected for an edge of the text: after "the ", of 0 bytes, it may be another place.
fn edge_wanted(n: u8) -> Expected
    ensures { result ≡ pick (n == 0) Named Edge }
{
    if n == 0 {
        Expected::Named
    } else {
        Expected::Edge
    }
}

// The edge of the text from which so many bytes are counted.
#[tactic(auto, unfolding(crate::specs::Reading::read_edge))]
fn read_edge(n: u8, text: &[u8]) -> Reading<'_, Place>
    ensures { Tells the_place (read_edge n text.now) result }
{
    if let Some(rest) = strip(b"beginning", text) {
        return Ok((Place::FromFirst(n), rest));
    }
    let rest = expect(b"end", text, edge_wanted(n))?;
    Ok((Place::FromLast(n), rest))
}

// So many bytes from an edge of the text.
#[tactic(auto, unfolding(crate::specs::Reading::read_count))]
fn read_count(text: &[u8]) -> Reading<'_, Place>
    ensures { Tells the_place (read_count text.now) result }
{
    let (n, rest) = read_number(text)?;
    let rest = expect(words::count_end(n), rest, Expected::Bytes)?;
    read_edge(n, rest)
}

// What follows "the ".
#[tactic(auto, unfolding(crate::specs::Reading::read_the))]
fn read_the(text: &[u8]) -> Reading<'_, Place>
    ensures { Tells the_place (read_the text.now) result }
{
    if begins_number(text) {
        return read_later(text);
    }
    if let Some(rest) = strip(words::first_place(false), text) {
        return read_sides(1, false, rest);
    }
    match strip(words::first_place(true), text) {
        Some(rest) => read_sides(1, true, rest),
        None => read_edge(0, text),
    }
}

#[tactic(auto, unfolding(crate::specs::Reading::read_place))]
pub fn read_place(text: &[u8]) -> Reading<'_, Place>
    ensures { Tells the_place (read_place text.now) result }
{
    if begins_number(text) {
        return read_count(text);
    }
    let rest = expect(b"the ", text, Expected::Place)?;
    read_the(rest)
}
