// What parts weigh: 16 for each unit of their cost, and 1 for the part.
ghost use Rattle.std.specs.Prelude.{◌≡◌, ◌≤◌};
ghost use Rattle.candidates.specs.Guide.{literal_weight, cut_weight};

pub(crate) fn literal_weight(bytes: u64) -> u64
    requires { bytes ≤ 64 }
    ensures { result ≡ literal_weight bytes }
{
    16 * (5 + 4 * bytes) + 1
}

// A cut between places of these costs.
pub(crate) fn cut_weight(from: u64, to: u64) -> u64
    requires from { from ≤ 255 }
    requires to { to ≤ 255 }
    ensures { result ≡ cut_weight from to }
{
    16 * (7 + from + to) + 1
}
