// The tables by place, made from the coset record.
ghost use Rattle.std.specs.Prelude.{◌≡◌, ◌<◌};
ghost use Rattle.numbering.specs.Inner.Space.{ChangedWithin, T_TABLE};
ghost use Rattle.figures.specs.Inner.Scan.{held_t};
ghost use Rattle.cusp_record.specs.Inner.Fill.{OnCusp};
ghost use Rattle.same_coset.specs.Inner.Places.{TURN, held_s, cusp_at, TurnSource, EndSource, TurnsAt, EndsTo};
ghost use Rattle.same_coset.specs.Inner.Places.{EndsFrame};

use crate::t_runs::{END, TURN, WIDTH};
use cusp_record::{CUSPS, Cusp, STEPS};
use numbering::{NUMBER, ORDER, S_TABLE, WIDTHS};

// For each place, the place to which S leads.
pub fn enter_turns(w: &mut [u16], n: usize)
    requires { TurnSource (held_s n w.old) (held_t n w.old) n w.old }
    ensures turns_at { TurnsAt (held_s n w.old) (held_t n w.old) n w.new }
    ensures changed_within { ChangedWithin TURN T_TABLE w.old w.new }
{
    for y in 0..n {
        let x = call::workspace::index(w[ORDER + y]);
        let z = call::workspace::index(w[S_TABLE + x]);
        w[TURN + y] = w[NUMBER + z];
    }
}

// The cusp of the place y.
fn cusp_at(w: &[u16], n: usize, y: usize) -> Cusp
    requires { EndSource (held_t n w.now) n w.now × (y < n) }
    ensures { (result.number ≡ cusp_at (held_t n w.now) y) × OnCusp (held_t n w.now) result y }
{
    let x = call::workspace::index(w[ORDER + y]);
    let number = call::workspace::index(w[CUSPS + x]);
    let steps = call::workspace::index(w[STEPS + x]);
    Cusp {
        number,
        first: y - steps,
        width: call::workspace::index(w[WIDTHS + number]),
    }
}

// For each place, where its cusp ends, and how wide it is.
pub fn enter_ends(w: &mut [u16], n: usize)
    requires { EndSource (held_t n w.old) n w.old }
    ensures ends_to { EndsTo (held_t n w.old) n w.new }
    ensures ends_frame { EndsFrame w.old w.new }
{
    for y in 0..n {
        let c = cusp_at(w, n, y);
        w[END + y] = (c.first + c.width) as u16;
        w[WIDTH + y] = c.width as u16;
    }
}
