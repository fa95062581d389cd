// What a look at the next candidate of a frame says.
ghost use Rattle.std.specs.Prelude.{◌≡◌, ◌<◌, ◌≤◌};
ghost use Rattle.candidates.specs.Problem.{count_in};
ghost use Rattle.candidates.specs.Viewed.{the_view};
ghost use Rattle.search.specs.Steps.{look_in, the_look, Near};

use crate::frame::Frame;
use candidates::{Problem, State};

#[derive(Clone, Copy)]
pub enum Outcome {
    // Passed over, with the shortfall that is now noted.
    Over(u64),
    // The state behind it accepts.
    Ends,
    // The search goes on from there, with so much left of the budget.
    Enters { state: State, left: u64 },
}

// What comes of a look at the next candidate of a frame, with so many parts at most behind it and this shortfall noted so far.
pub(crate) fn judge(problem: Problem, frame: &Frame, parts: usize, short: u64) -> Outcome
    requires few { parts ≤ 8 }
    requires there { frame.now.index < count_in (the_view problem) frame.now.state }
    ensures value { the_look result ≡ look_in (the_view problem.entry) frame.now parts short }
    ensures near { Near result short }
{
    let Some(next) = problem.look(&frame.state, frame.index as usize) else {
        return Outcome::Over(short);
    };
    let need = next.weight + problem.needed(parts, &next.state);
    if need > frame.left {
        Outcome::Over(short.min(need - frame.left))
    } else if problem.at_end(&next.state) {
        Outcome::Ends
    } else {
        Outcome::Enters {
            state: next.state,
            left: frame.left - next.weight,
        }
    }
}
