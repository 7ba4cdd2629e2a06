// Reading the symbol, and the tables in the work space.
ghost use Rattle.std.specs.Prelude.{◌≡◌, ◌+◌, ◌*◌, ◌≤◌, ◌<◌, length, get_or};
ghost use Rattle.symbol.specs.Symbol.{IsSymbol};
ghost use Rattle.pairing.specs.Generator.{pairing_at};
ghost use Rattle.polygon.specs.Cut.{den};
ghost use Rattle.polygon.specs.Inner.Space.{FLIP, GENERATOR};
ghost use Rattle.pairing.specs.Inner.Work.{PARTNER};

use super::{FLIP, GENERATOR};
use pairing::partner::PARTNER;
use symbol::{Pairing, read_pairing};

// The denominator of vertex y, counted from 0 for -1/0.
pub(crate) fn denominator(t: &[i64], v: usize, y: usize) -> u64
    requires { IsSymbol v t.now × (y ≤ v) }
    ensures { (result ≡ den t.now y) × (result ≤ 1000000000) }
{
    if y == 0 {
        return 0;
    }
    let i = y - 1;
    let x = t[2 * i + 1];
    x as u64
}

// What side i is paired as.
pub(crate) fn pairing(t: &[i64], v: usize, i: usize) -> Pairing
    requires { IsSymbol v t.now × (i ≤ v) }
    ensures { result ≡ pairing_at v t.now i }
{
    read_pairing(v, t[2 * v + i])
}

// Three readings, of a table each: one function for them would be told the table at each call.

// The position beyond the edge at p.
pub(crate) fn beyond(w: &[u16], p: usize) -> usize
    requires { (p < 4096) × (32768 ≤ length w.now) }
    ensures { result ≡ get_or w.now (FLIP + p) 0 }
{
    call::workspace::index(w[FLIP + p])
}

// The partner of side i, by the table.
pub(crate) fn partner_of(w: &[u16], i: usize) -> usize
    requires { (i ≤ 1023) × (32768 ≤ length w.now) }
    ensures { result ≡ get_or w.now (PARTNER + i) 0 }
{
    call::workspace::index(w[PARTNER + i])
}

// The number of the generator of side i, by the table.
pub(crate) fn number_of(w: &[u16], i: usize) -> usize
    requires { (i ≤ 1023) × (32768 ≤ length w.now) }
    ensures { result ≡ get_or w.now (GENERATOR + i) 0 }
{
    call::workspace::index(w[GENERATOR + i])
}
