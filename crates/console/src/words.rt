// The words of which a rule's text is made, and the bytes that stand in its quotes.
ghost use Rattle.std.specs.Prelude.{◌≡◌, codes};
ghost use Rattle.rules.specs.Lists.{pick};
ghost use Rattle.rules.specs.Values.{kind_number, the_place};
ghost use Rattle.console.specs.Text.{utf8, marked, plain, ordinal_end, count_end, run_text, to_text};

use rules::{Kind, Place};
use std::str;

// Whether the bytes are UTF-8 as a whole.
pub fn is_utf8(bytes: &[u8]) -> bool
    ensures { result ≡ utf8 bytes.now }
{
    str::from_utf8(bytes).is_ok()
}

// A quote or a backslash, which has a backslash before it.
pub fn is_marked(byte: u8) -> bool
    ensures { result ≡ marked byte }
{
    matches!(byte, b'"' | b'\\')
}

// A byte that may stand as it is.
pub fn is_plain(byte: u8) -> bool
    ensures { result ≡ plain byte }
{
    !byte.is_ascii_control() && !is_marked(byte)
}

// What makes the second of 2, and so on.
pub fn ordinal_end(n: u8) -> &'static [u8]
    ensures { result.now ≡ ordinal_end n }
{
    match (n / 10, n % 10) {
        (1, _) => b"th",
        (_, 1) => b"st",
        (_, 2) => b"nd",
        (_, 3) => b"rd",
        _ => b"th",
    }
}

// What stands between the number of bytes and where they are counted from.
pub fn count_end(n: u8) -> &'static [u8]
    ensures { result.now ≡ count_end n }
{
    if n == 1 {
        b" byte from the "
    } else {
        b" bytes from the "
    }
}

// That a run of this kind ends, or begins.
pub fn run_words(ends: bool, kind: Kind) -> &'static [u8]
    ensures { result.now ≡ run_text ends (kind_number kind) }
{
    match (kind, ends) {
        (Kind::Digits, true) => b"digits end",
        (Kind::Digits, false) => b"digits begin",
        (Kind::Letters, true) => b"a run of letters ends",
        (Kind::Letters, false) => b"a run of letters begins",
        (Kind::Capitals, true) => b"capitals end",
        (Kind::Capitals, false) => b"capitals begin",
        (Kind::SmallLetters, true) => b"small letters end",
        (Kind::SmallLetters, false) => b"small letters begin",
        (Kind::Blanks, true) => b"blanks end",
        (Kind::Blanks, false) => b"blanks begin",
        (Kind::Anything | Kind::Sign(_), _) => b"",
    }
}

// The place that is named first, from the end or from the beginning.
pub fn first_place(back: bool) -> &'static [u8]
    ensures { result.now ≡ pick back (codes "last place ") (codes "first place ") }
{
    if back {
        b"last place "
    } else {
        b"first place "
    }
}

// What follows the number of another one.
pub fn later_place(back: bool) -> &'static [u8]
    ensures { result.now ≡ pick back (codes " last place ") (codes " place ") }
{
    if back { b" last place " } else { b" place " }
}

// What stands between the places of a cut.
pub fn to_words(from: Place) -> &'static [u8]
    ensures { result.now ≡ to_text (the_place from) }
{
    match from {
        Place::NthOf { .. } => b", to ",
        Place::FromFirst(_) | Place::FromLast(_) => b" to ",
    }
}
