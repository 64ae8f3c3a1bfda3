// Numbers of ends and lanes.
ghost use Rattle.std.specs.Prelude.{◌≡◌, ◌<◌};
ghost use Rattle.model.specs.Limits.{ends_most};
ghost use Rattle.model.specs.State.{opp};

// The other end of the same link.
pub fn other(x: usize) -> usize
    requires { x < ends_most }
    ensures { (result ≡ opp x) × (result < ends_most) }
{
    x + 1 - 2 * (x % 2)
}
