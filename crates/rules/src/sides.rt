// What stands before a place, and what behind it.
ghost use Rattle.std.specs.Prelude.{◌≡◌, ◌+◌, ◌==◌, ◌&&◌, length};
ghost use Rattle.rules.specs.Places.{there, before_is, behind_is, all_of};
ghost use Rattle.rules.specs.Values.{kind_number};

use crate::kind::Kind;

#[derive(Clone, Copy, PartialEq, Eq, Debug)]
pub struct Sides {
    pub left: Kind,
    pub right: Kind,
}

// Whether the text has a byte of this kind there.
fn there(text: &[u8], kind: Kind, at: usize) -> bool
    ensures { result ≡ there text.now (kind_number kind) at }
{
    text.get(at).is_some_and(|byte| kind.has(*byte))
}

// Whether this kind stands before the place: of a run, its end.
fn before_is(text: &[u8], kind: Kind, at: usize) -> bool
    ensures { result ≡ before_is text.now (kind_number kind) at }
{
    match kind {
        Kind::Anything => true,
        Kind::Sign(_) => at >= 1 && there(text, kind, at - 1),
        _ => at >= 1 && there(text, kind, at - 1) && !there(text, kind, at),
    }
}

// Whether this kind stands behind the place: of a run, its beginning.
fn behind_is(text: &[u8], kind: Kind, at: usize) -> bool
    ensures { result ≡ behind_is text.now (kind_number kind) at }
{
    match kind {
        Kind::Anything => true,
        Kind::Sign(_) => there(text, kind, at),
        _ => there(text, kind, at) && (at == 0 || !there(text, kind, at - 1)),
    }
}

impl Sides {
    // Whether both are `Anything`: no rule has an nth place with these sides.
    pub fn are_anything(self) -> bool
        ensures { result ≡ (kind_number self.left + kind_number self.right == 0) }
    {
        self.left == Kind::Anything && self.right == Kind::Anything
    }

    // Whether the left one stands before this place, and the right one behind it.
    pub(crate) fn is_at(self, text: &[u8], at: usize) -> bool
        ensures { result ≡ (before_is text.now (kind_number self.left) at && behind_is text.now (kind_number self.right) at) }
    {
        before_is(text, self.left, at) && behind_is(text, self.right, at)
    }

    // How many places there are with these sides.
    pub fn count_in(self, text: &[u8]) -> usize
        ensures { result ≡ length (all_of text.now (kind_number self.left) (kind_number self.right)) }
    {
        // Not `0..=text.len()`: the proof of a chain from such a range doesn't close.
        (0..text.len() + 1)
            .filter(|at| self.is_at(text, *at))
            .count()
    }
}
