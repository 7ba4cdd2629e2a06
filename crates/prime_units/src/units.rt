// A unit g modulo a prime power q such that each unit is g^i or -g^i: the powers of g and their opposites are marked in
// the work space, until some g has all units marked.
ghost use Rattle.std.specs.Prelude.{◌≡◌, true, false, ◌+◌, ◌≤◌, ◌<◌, get_or, length};
ghost use Rattle.std.specs.Int.{◌∣◌};
ghost use Rattle.call.specs.Space.{work_length};
ghost use Rattle.numbering.specs.Inner.Space.{ChangedWithin};
ghost use Rattle.congruence_decision.specs.Units.{Generating};
ghost use Rattle.prime_units.specs.Inner.Marks.{MARKS, MARKS_END, Powered, Marking, MarkedTo, Unmarked, OfPrime};
ghost use Rattle.prime_units.specs.Inner.Found.{FoundUnit};

use crate::inverse;

// Where the marks begin.
pub const MARKS: usize = 12288;

// A unit and its inverse; 0 and 0 where none was found.
#[derive(Clone, Copy)]
pub struct Found {
    pub g: usize,
    pub h: usize,
}

// Marks one number.
fn mark(w: &mut [u16], q: usize, g: usize, x: usize)
    requires { Marking q g w.old × (x ≤ q) × Powered q g x }
    ensures marking { Marking q g w.new }
    ensures changed_within { ChangedWithin MARKS MARKS_END w.old w.new }
{
    w[MARKS + x] = 1;
}

// Marks the powers of g modulo q, and their opposites.
fn mark_powers(w: &mut [u16], q: usize, g: usize)
    requires { Marking q g w.old }
    ensures marking { Marking q g w.new }
    ensures changed_within { ChangedWithin MARKS MARKS_END w.old w.new }
{
    let mut x: usize = 1;
    for i in 0..q {
        mark(w, q, g, x);
        mark(w, q, g, q - x);
        x = x * g % q;
    }
}

// Whether u is neither divisible by p nor marked.
fn lacks(w: &[u16], p: usize, u: usize) -> bool
    requires { (0 < p) × (u ≤ 4095) × (work_length ≤ length w.now) }
    ensures { result ≡ false → (p ∣ u → ⊥) → 0 < get_or w.now (MARKS + u) 0 }
{
    if u % p == 0 {
        return false;
    }
    w[MARKS + u] == 0
}

// Whether all numbers from 1 to q - 1 that p does not divide are marked.
fn all_marked(w: &[u16], p: usize, q: usize) -> bool
    requires { (0 < p) × (q ≤ 4095) × (work_length ≤ length w.now) }
    ensures { result ≡ true → MarkedTo p q w.now }
{
    for u in 1..q {
        if lacks(w, p, u) {
            return false;
        }
    }
    true
}

// No marks.
fn clear_marks(w: &mut [u16], q: usize)
    requires { (1 < q) × (q ≤ 4095) × (work_length ≤ length w.old) }
    ensures unmarked { Unmarked q w.new }
    ensures changed_within { ChangedWithin MARKS MARKS_END w.old w.new }
{
    for j in 0..q + 1 {
        w[MARKS + j] = 0;
    }
}

// The inverse of g modulo q, a power of the prime p, where g and -1 generate the units; else 0.
fn try_unit(w: &mut [u16], p: usize, q: usize, g: usize) -> usize
    requires { OfPrime p q × (q ≤ 4095) × (g ≤ q) × (work_length ≤ length w.old) }
    ensures generating { 0 < result → Generating q g result }
    ensures changed_within { ChangedWithin MARKS MARKS_END w.old w.new }
{
    let h = inverse(q, g);
    if h == 0 {
        return 0;
    }
    clear_marks(w, q);
    mark_powers(w, q, g);
    if all_marked(w, p, q) {
        return h;
    }
    0
}

// The first g from 1 that generates with -1 the units modulo q, a power of the prime p.
pub fn find_unit(w: &mut [u16], p: usize, q: usize) -> Found
    requires { OfPrime p q × (q ≤ 4095) × (work_length ≤ length w.old) }
    ensures found_unit { FoundUnit q result }
    ensures changed_within { ChangedWithin MARKS MARKS_END w.old w.new }
{
    for g in 1..q {
        let h = try_unit(w, p, q, g);
        if 0 < h {
            return Found { g, h };
        }
    }
    Found { g: 0, h: 0 }
}
