// Rules printed as text.
ghost use Rattle.std.specs.Prelude.{◌≡◌, ◌<◌, ◌++◌, IfOk, OnOk};
ghost use Rattle.rules.specs.Rules.{cut as a_cut};
ghost use Rattle.rules.specs.Values.{kind_number, the_place, the_part, the_parts};
ghost use Rattle.console.specs.Text.{hex, shown, quoted, number_text, count_text, kind_text, sides_text, nth_text, place_text, part_text, rule_text};
ghost use Rattle.rules.specs.Held.{the_rule};

use crate::words;
use rules::{Cut, Kind, Part, Place, Rule, Sides};
use std::alloc::{AllocError, Global};

// A hexadecimal digit.
fn hex(digit: u8) -> u8
    requires { digit < 16 }
    ensures { result ≡ hex digit }
{
    if digit < 10 {
        b'0' + digit
    } else {
        b'a' - 10 + digit
    }
}

// A byte of a literal; `high` says whether one from 128 on stands as it is.
fn push_byte(out: &mut Vec<u8>, high: bool, byte: u8) -> Result<(), AllocError>
    ensures { OnOk result (out.new.items ≡ out.old.items ++ shown high byte) }
{
    if words::is_marked(byte) {
        out.extend_from_slice(&[b'\\', byte])
    } else if words::is_plain(byte) && (high || byte < 128) {
        out.extend_from_slice(&[byte])
    } else {
        out.extend_from_slice(&[b'\\', b'x', hex(byte / 16), hex(byte % 16)])
    }
}

// Bytes in quotes.
#[tactic(auto, using(crate::proofs::Appends::appends))]
fn push_quoted(out: &mut Vec<u8>, bytes: &[u8]) -> Result<(), AllocError>
    ensures { OnOk result (out.new.items ≡ out.old.items ++ quoted bytes.now) }
{
    let high = words::is_utf8(bytes);
    out.extend_from_slice(b"\"")?;
    for byte in bytes {
        push_byte(out, high, *byte)?;
    }
    out.extend_from_slice(b"\"")
}

fn push_number(out: &mut Vec<u8>, n: u8) -> Result<(), AllocError>
    ensures { OnOk result (out.new.items ≡ out.old.items ++ number_text n) }
{
    if n < 10 {
        out.extend_from_slice(&[b'0' + n])
    } else {
        out.extend_from_slice(&[b'0' + n / 10, b'0' + n % 10])
    }
}

// So many bytes from an edge of the text, or the edge itself.
fn push_count(out: &mut Vec<u8>, n: u8) -> Result<(), AllocError>
    ensures { OnOk result (out.new.items ≡ out.old.items ++ count_text n) }
{
    if n == 0 {
        return out.extend_from_slice(b"the ");
    }
    push_number(out, n)?;
    out.extend_from_slice(words::count_end(n))
}

// What ends or begins at a place.
fn push_kind(out: &mut Vec<u8>, ends: bool, kind: Kind) -> Result<(), AllocError>
    ensures { OnOk result (out.new.items ≡ out.old.items ++ kind_text ends (kind_number kind)) }
{
    let Kind::Sign(byte) = kind else {
        return out.extend_from_slice(words::run_words(ends, kind));
    };
    out.extend_from_slice(b"there's a ")?;
    push_quoted(out, &[byte])
}

// What is before a place, what is behind it, or both.
fn push_sides(out: &mut Vec<u8>, sides: Sides) -> Result<(), AllocError>
    ensures { OnOk result (out.new.items ≡ out.old.items ++ sides_text (kind_number sides.left) (kind_number sides.right)) }
{
    if sides.left == Kind::Anything {
        out.extend_from_slice(b"behind which ")?;
        return push_kind(out, false, sides.right);
    }
    out.extend_from_slice(b"before which ")?;
    push_kind(out, true, sides.left)?;
    if sides.right == Kind::Anything {
        return Ok(());
    }
    out.extend_from_slice(b", and behind which ")?;
    push_kind(out, false, sides.right)
}

// Which of the places it is.
fn push_nth(out: &mut Vec<u8>, n: u8, back: bool) -> Result<(), AllocError>
    ensures { OnOk result (out.new.items ≡ out.old.items ++ nth_text n back) }
{
    if n == 1 {
        return out.extend_from_slice(words::first_place(back));
    }
    push_number(out, n)?;
    out.extend_from_slice(words::ordinal_end(n))?;
    out.extend_from_slice(words::later_place(back))
}

fn push_place(out: &mut Vec<u8>, place: Place) -> Result<(), AllocError>
    ensures { OnOk result (out.new.items ≡ out.old.items ++ place_text (the_place place)) }
{
    match place {
        Place::FromFirst(n) => {
            push_count(out, n)?;
            out.extend_from_slice(b"beginning")
        }
        Place::FromLast(n) => {
            push_count(out, n)?;
            out.extend_from_slice(b"end")
        }
        Place::NthOf { sides, n, back } => {
            out.extend_from_slice(b"the ")?;
            push_nth(out, n, back)?;
            push_sides(out, sides)
        }
    }
}

fn push_cut(out: &mut Vec<u8>, cut: &Cut) -> Result<(), AllocError>
    ensures { OnOk result (out.new.items ≡ out.old.items ++ part_text (a_cut (the_place cut.now.from) (the_place cut.now.to))) }
{
    out.extend_from_slice(b"from ")?;
    push_place(out, cut.from)?;
    out.extend_from_slice(words::to_words(cut.from))?;
    push_place(out, cut.to)
}

fn push_part(out: &mut Vec<u8>, part: &Part) -> Result<(), AllocError>
    ensures { OnOk result (out.new.items ≡ out.old.items ++ part_text (the_part part.now)) }
{
    match part {
        Part::Bytes(literal) => push_quoted(out, literal.as_slice()),
        Part::Cut(cut) => push_cut(out, cut),
    }
}

#[tactic(auto, using(crate::proofs::Appends::appends))]
fn push_parts(out: &mut Vec<u8>, parts: &[Part]) -> Result<(), AllocError>
    ensures { OnOk result (out.new.items ≡ out.old.items ++ rule_text (the_parts parts.now)) }
{
    let [first, later @ ..] = parts else {
        return out.extend_from_slice(b"no parts");
    };
    push_part(out, first)?;
    for part in later {
        out.extend_from_slice(b"; ")?;
        push_part(out, part)?;
    }
    Ok(())
}

// The text of a rule.
pub fn rule_text(heap: Global, rule: &Rule) -> Result<Vec<u8>, AllocError>
    ensures { IfOk result (λ v. v.items ≡ rule_text (the_rule rule.now)) }
{
    let mut out = Vec::new(heap);
    push_parts(&mut out, rule.parts())?;
    Ok(out)
}
