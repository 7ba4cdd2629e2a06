// Partners of free sides, found in one run over the pairings with two tables in the work space, and the kinds of sides.
ghost use Rattle.std.specs.Prelude.{◌≡◌, ◌+◌, ◌≤◌, ◌<◌, length, get_or, pos};
ghost use Rattle.matrix.specs.Matrix.{nth};
ghost use Rattle.call.specs.Space.{work_length};
ghost use Rattle.symbol.specs.Table.{pairing_of};
ghost use Rattle.pairing.specs.Generator.{kind_of};
ghost use Rattle.pairing.specs.Inner.Work.{FIRST, met, met_by, AllPaired, PairedTo, FirstsBounded, Partnered};

use symbol::{Pairing, read_pairing};

// The places of the tables in the work space (specs/Work.antt).
const FIRST: usize = 4096;

pub const PARTNER: usize = 30720;

// Side i has the label l: remembers it, or makes it the partner of the side that was remembered.
fn meet(l: usize, i: usize, w: &mut [u16])
    requires { (l ≤ 1024) × (i ≤ 1023) × (work_length ≤ length w.old) × (get_or w.old (FIRST + l) 0 ≤ 1024) }
    ensures { w.new ≡ met l i w.old }
{
    let seen = call::workspace::index(w[FIRST + l]);
    if seen == 0 {
        w[FIRST + l] = (i + 1) as u16;
        return;
    }
    let j = seen - 1;
    w[PARTNER + i] = j as u16;
    w[PARTNER + j] = i as u16;
}

// Side i, with the pairing x, is met.
fn pair_side(v: usize, x: i64, i: usize, w: &mut [u16])
    requires { (v ≤ 1023) × (i ≤ v) × (work_length ≤ length w.old) × FirstsBounded v w.old }
    ensures { w.new ≡ met_by (pairing_of v x) i w.old }
{
    if let Pairing::Free(l) = read_pairing(v, x) {
        meet(l, i, w);
    }
}

// Finds the partners of all free sides; the work space is zero before.
pub fn pair_sides(v: usize, p: &[i64], w: &mut [u16])
    requires { (v ≤ 1023) × AllPaired v p.now × PairedTo v p.now 0 w.old }
    ensures { Partnered v p.now w.new
        × (length w.new ≡ length w.old) }
{
    for i in 0..v + 1 {
        pair_side(v, p[i], i, w);
    }
}

// The kind of side i: 1 free, 2 even, 3 odd.
pub fn kind_at(v: usize, p: &[i64], i: usize) -> i64
    requires { (v ≤ 1023) × (i < length p.now) }
    ensures { result ≡ pos (kind_of (pairing_of v (nth p.now i))) }
{
    match read_pairing(v, p[i]) {
        Pairing::Even => 2,
        Pairing::Odd => 3,
        Pairing::Free(_) => 1,
        Pairing::Bad => 0,
    }
}
