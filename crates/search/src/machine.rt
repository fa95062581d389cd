// A search at some point: the budget of the round, the shortfall that was noted in it, and the frames, of which the first `depth` are in use.
ghost use Rattle.std.specs.Prelude.{◌≤◌};
ghost use Rattle.search.specs.declared.machine.TheConstants.{FAR, LIMIT, MOST_PARTS};

use crate::frame::Frame;
use crate::status::Status;

// A rule has no more parts, so a way has no more frames.
pub(crate) const MOST_PARTS: usize = 8;

// No rule weighs more: eight literals of 64 bytes.
pub(crate) const LIMIT: u64 = 33416;

// The shortfall that a round starts from: a number, so that the least can be taken.
pub(crate) const FAR: u64 = 65536;

// All eight frames, and not an `ArrayVec` of those in use, since what lies in memory behind these stays there.
#[derive(Clone, Copy)]
pub struct Machine {
    pub(crate) status: Status,
    pub(crate) budget: u64,
    pub(crate) short: u64,
    pub(crate) depth: usize,
    pub(crate) frames: [Frame; MOST_PARTS],
    ghost few: { depth ≤ MOST_PARTS },
    ghost cheap: { budget ≤ LIMIT },
    ghost near: { short ≤ FAR },
}
