// A frame of a search: a state on the way, how much of the budget is left there, and which candidate to look at next.
ghost use Rattle.std.specs.Prelude.{◌≡◌};

use candidates::State;

#[derive(Clone, Copy)]
pub struct Frame {
    pub state: State,
    pub left: u64,
    pub index: u64,
}

impl Frame {
    ghost use Rattle.search.specs.Steps.{entered_at};

    // A state that is entered: none of its candidates was looked at yet.
    pub(crate) fn entered(state: State, left: u64) -> Frame
        ensures { result ≡ entered_at state left }
    {
        Frame {
            state,
            left,
            index: 0,
        }
    }
}
