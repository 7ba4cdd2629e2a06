// Where a cycle begins.
ghost use Rattle.std.specs.Prelude.{◌≡◌, ◌<◌, length};
ghost use Rattle.cycle_writing.specs.Cycles.{begins_cycle};
ghost use Rattle.cycle_writing.specs.Inner.Short.{ShortTable};

use permutations::image;

// Whether a cycle of two points or three begins at x: the point behind x is above it, and no further one is below.
pub(crate) fn is_start(t: &[u32], x: usize) -> bool
    requires { ShortTable t.now × (x < length t.now) }
    ensures { result ≡ begins_cycle t.now x }
{
    let a = image(t, x);
    x < a && x <= image(t, a)
}
