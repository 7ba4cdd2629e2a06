// The polygon of an accepted symbol, cut into Farey triangles in a lent work space, and the steps of the walk over its
// positions.
//
// specs/Cut.antt says what the cut is, specs/Step.antt what a step does and writes, specs/Theorem.antt what that is
// good for, and specs/Space.antt where the tables lie. Each call asks for an accepted symbol: refusals are the business
// of the calls above.
#![tactic(auto)]

ghost use Rattle.std.specs.Prelude.{◌≡◌, ◌≤◌, length};
ghost use Rattle.symbol.specs.Symbol.{IsSymbol};
ghost use Rattle.polygon.specs.Inner.Tables.{Built};

use cutting::cut;
use pairing::partner::pair_sides;
use pairs::number_sides;
use walking::start_position;

mod cutting;
mod pairs;
mod reading;
pub mod turning;
pub mod walking;

// The tables in the work space (specs/Space.antt).
pub const FLIP: usize = 4096;

pub const STACK: usize = 28672;

pub const HANDLE: usize = 29696;

pub const GENERATOR: usize = 31744;

// Both tables and the cut, for an accepted symbol, whatever stands in the work space: returns the position where the
// walk starts.
pub fn build(t: &[i64], v: usize, w: &mut [u16]) -> usize
    requires { IsSymbol v t.now × (32768 ≤ length w.old) }
    ensures { Built t.now v w.new result × (length w.new ≡ length w.old) }
{
    call::workspace::clear(w);
    pair_sides(v, &t[2 * v..], w);
    number_sides(t, v, w);
    let under = cut(t, v, w);
    start_position(t, v, w, under)
}
