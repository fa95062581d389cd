// What may stand before or behind a place: anything, a run of one kind of bytes, or a sign.
ghost use Rattle.std.specs.Prelude.{◌≡◌};
ghost use Rattle.rules.specs.Places.{of_kind};
ghost use Rattle.rules.specs.Values.{kind_number, IsNumberOf, KindOf};

use thiserror::Error;

#[derive(Clone, Copy, PartialEq, Eq, Debug, Default)]
pub enum Kind {
    #[default]
    Anything,
    Digits,
    Letters,
    Capitals,
    SmallLetters,
    Blanks,
    // One byte, whichever.
    Sign(u8),
}

#[derive(Clone, Copy, PartialEq, Eq, Debug, Error)]
#[error("no kind has the number {0}")]
pub struct NotAKind(pub u64);

// The number by which a kind is known: 0 to 5, or 256 and the sign.
impl From<Kind> for u16 {
    ghost from_gives = { IsNumberOf };

    fn from(kind: Kind) -> u16 {
        match kind {
            Kind::Anything => 0,
            Kind::Digits => 1,
            Kind::Letters => 2,
            Kind::Capitals => 3,
            Kind::SmallLetters => 4,
            Kind::Blanks => 5,
            Kind::Sign(byte) => 256 + byte as u16,
        }
    }
}

// The kind of a number, if there is one.
impl TryFrom<u64> for Kind {
    type Error = NotAKind;

    ghost try_from_gives = { KindOf };

    fn try_from(number: u64) -> Result<Kind, NotAKind> {
        match number {
            0 => Ok(Kind::Anything),
            1 => Ok(Kind::Digits),
            2 => Ok(Kind::Letters),
            3 => Ok(Kind::Capitals),
            4 => Ok(Kind::SmallLetters),
            5 => Ok(Kind::Blanks),
            256..=511 => Ok(Kind::Sign((number - 256) as u8)),
            _ => Err(NotAKind(number)),
        }
    }
}

impl Kind {
    // Whether a byte is of this kind. No byte is of the kind `Anything`.
    pub fn has(self, byte: u8) -> bool
        ensures { result ≡ of_kind (kind_number self) byte }
    {
        match self {
            Kind::Anything => false,
            Kind::Digits => matches!(byte, b'0'..=b'9'),
            Kind::Letters => matches!(byte, b'A'..=b'Z' | b'a'..=b'z'),
            Kind::Capitals => matches!(byte, b'A'..=b'Z'),
            Kind::SmallLetters => matches!(byte, b'a'..=b'z'),
            Kind::Blanks => byte == b' ',
            Kind::Sign(sign) => byte == sign,
        }
    }
}
