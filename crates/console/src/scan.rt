// Words, bytes and numbers read from text.
ghost use Rattle.std.specs.Prelude.{◌≡◌, ◌<◌, length, IfOk, IfErr, Some, None, MatchOption};
ghost use Rattle.console.specs.Reading.{strip, begins_number, read_second, past_second, read_digit, read_hex, read_escaped, read_byte, read_number};
ghost use Rattle.console.specs.Told.{Tells};

use crate::expected::Expected;
use crate::failed::Failed;
use crate::words;

// What was read and the text that is left, or where it failed.
pub type Reading<'a, T, E = Failed> = Result<(T, &'a [u8]), E>;

// The text after a word, if it begins with it.
pub fn strip<'a>(word: &[u8], text: &'a [u8]) -> Option<&'a [u8]>
    ensures { MatchOption result (strip word.now text.now ≡ None) (λ rest. strip word.now text.now ≡ Some rest.now) }
{
    text.strip_prefix(word)
}

// The text after a word that has to stand there.
pub fn expect<'a>(word: &[u8], text: &'a [u8], wanted: Expected) -> Result<&'a [u8], Failed>
    ensures ok { IfOk result (λ rest. strip word.now text.now ≡ Some rest.now) }
    ensures none { IfErr result (λ _. strip word.now text.now ≡ None) }
    ensures left { IfErr result (λ f. f.left ≡ length text.now) }
    ensures expected { IfErr result (λ f. f.expected ≡ wanted) }
{
    strip(word, text).ok_or(Failed::at(text, wanted))
}

// A hexadecimal digit.
fn read_digit(text: &[u8]) -> Reading<'_, u8>
    ensures told { Tells (λ d. d) (read_digit text.now) result }
    ensures small { IfOk result (λ p. p.0 < 16) }
{
    match text {
        [byte @ b'0'..=b'9', rest @ ..] => Ok((byte - b'0', rest)),
        [byte @ b'a'..=b'f', rest @ ..] => Ok((byte - b'a' + 10, rest)),
        _ => Err(Failed::at(text, Expected::Digit)),
    }
}

fn read_hex(text: &[u8]) -> Reading<'_, u8>
    ensures { Tells (λ c. c) (read_hex text.now) result }
{
    let (high, rest) = read_digit(text)?;
    let (low, rest) = read_digit(rest)?;
    Ok((16 * high + low, rest))
}

// What follows a backslash.
fn read_escaped(text: &[u8]) -> Reading<'_, u8>
    ensures { Tells (λ c. c) (read_escaped text.now) result }
{
    match text {
        [byte, rest @ ..] if words::is_marked(*byte) => Ok((*byte, rest)),
        [b'x', rest @ ..] => read_hex(rest),
        _ => Err(Failed::at(text, Expected::Escape)),
    }
}

// A byte of what stands in quotes.
#[tactic(auto, unfolding(crate::specs::Reading::read_byte))]
pub fn read_byte(text: &[u8]) -> Reading<'_, u8>
    ensures { Tells (λ c. c) (read_byte text.now) result }
{
    match text {
        [b'\\', rest @ ..] => read_escaped(rest),
        [byte, rest @ ..] if words::is_plain(*byte) => Ok((*byte, rest)),
        _ => Err(Failed::at(text, Expected::Byte)),
    }
}

pub fn begins_number(text: &[u8]) -> bool
    ensures { result ≡ begins_number text.now }
{
    matches!(text, [b'1'..=b'9', ..])
}

// The number of this digit, or of two if another follows; and the text behind it.
fn with_second(first: u8, text: &[u8]) -> (u8, &[u8])
    requires { first < 10 }
    ensures number { result.0 ≡ read_second first text.now }
    ensures behind { result.1.now ≡ past_second text.now }
{
    match text {
        [second @ b'0'..=b'9', rest @ ..] => (10 * first + (second - b'0'), rest),
        _ => (first, text),
    }
}

// A number from 1 to 64.
#[tactic(auto, unfolding(crate::specs::Reading::read_number))]
pub fn read_number(text: &[u8]) -> Reading<'_, u8>
    ensures { Tells (λ n. n) (read_number text.now) result }
{
    let [first @ b'1'..=b'9', rest @ ..] = text else {
        return Err(Failed::at(text, Expected::Number));
    };
    let (number, rest) = with_second(first - b'0', rest);
    if number > 64 {
        return Err(Failed::at(text, Expected::Number));
    }
    Ok((number, rest))
}
