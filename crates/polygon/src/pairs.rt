// The numbers of the generators, in one run over the sides.
ghost use Rattle.std.specs.Prelude.{◌≡◌, ◌+◌, ◌≤◌, length};
ghost use Rattle.symbol.specs.Symbol.{IsSymbol};
ghost use Rattle.pairing.specs.Generator.{is_leader};
ghost use Rattle.polygon.specs.Inner.Space.{Above};
ghost use Rattle.polygon.specs.Inner.Partners.{PartnersHeld, NumberedTo, Numbered};

use super::GENERATOR;
use super::reading::{pairing, partner_of};
use symbol::Pairing;

// Whether side i is the leftmost side of its generator.
fn is_leading(t: &[i64], v: usize, w: &[u16], i: usize) -> bool
    requires { IsSymbol v t.now × PartnersHeld t.now v w.now × (i ≤ v) × (32768 ≤ length w.now) }
    ensures { result ≡ is_leader v t.now i }
{
    match pairing(t, v, i) {
        Pairing::Even | Pairing::Odd => true,
        Pairing::Free(_) => i < partner_of(w, i),
        Pairing::Bad => false,
    }
}

// Side i gets the number of its generator, where n generators are numbered; returns how many are then.
fn number_side(t: &[i64], v: usize, w: &mut [u16], i: usize, n: usize) -> usize
    requires { IsSymbol v t.now × NumberedTo t.now v w.old i n × (i ≤ v) }
    ensures { Above w.old w.new
        × NumberedTo t.now v w.new (i + 1) result }
{
    if is_leading(t, v, w, i) {
        w[GENERATOR + i] = (n + 1) as u16;
        return n + 1;
    }
    let k = partner_of(w, i);
    let j = w[GENERATOR + k];
    w[GENERATOR + i] = j;
    n
}

// Every side gets the number of its generator.
pub(crate) fn number_sides(t: &[i64], v: usize, w: &mut [u16])
    requires { IsSymbol v t.now × PartnersHeld t.now v w.old × (32768 ≤ length w.old) }
    ensures { Above w.old w.new × PartnersHeld t.now v w.new
        × Numbered t.now v w.new }
{
    let mut n = 0;
    for i in 0..v + 1 {
        n = number_side(t, v, w, i, n);
    }
}
