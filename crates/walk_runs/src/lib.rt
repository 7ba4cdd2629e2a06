// The walk of a matrix over the positions of a symbol without its letters: where it ends and how many it writes. Its
// alternating word is made of runs, one for each quotient of the Euclidean algorithm: short runs are walked block by
// block, long ones found by one division.
//
// specs/Runs.antt has the laws of runs, specs/Inner/Tally.antt what is promised.
#![tactic(auto)]

ghost use Rattle.std.specs.Prelude.{◌≡◌, true, false, ◌^◌, ◌≤◌, ◌<◌, pos, length};
ghost use Rattle.basics.specs.Choice.{pick};
ghost use Rattle.matrix.specs.Matrix.{of_list, det};
ghost use Rattle.matrix.specs.Words.{Q, P};
ghost use Rattle.matrix.specs.Euclid.{total};
ghost use Rattle.matrix.specs.Bounds.{Small};
ghost use Rattle.symbol.specs.Symbol.{IsSymbol};
ghost use Rattle.coset.specs.Positions.{Real};
ghost use Rattle.coset.specs.Inner.Steps.{StepTables};
ghost use Rattle.walk.specs.Inner.Way.{form_of, proper_of, Setting, Sound};
ghost use Rattle.walk_runs.specs.Inner.Rounds.{Rounds, HasPlace};
ghost use Rattle.walk_runs.specs.Inner.Tally.{Ran, Entrance, OneProper, RunTakes, NextRun, Ahead, WalkTallied};

use crate::rounds::{follow, follow_back, letters, letters_of_s, place};
use coset::steps::{block_end, next};
use walk::{Way, begin, finish, is_proper, take};

pub mod rounds;

// The length of the tables of rounds.
pub const ROUNDS: usize = 20481;

// A position, and how many letters are written on the way there.
#[derive(Clone, Copy)]
pub struct Stop {
    pub at: usize,
    pub count: usize,
}

// ---- one run

// k blocks of S Q from p, or of S Q⁻¹ where `inverse` holds, one by one.
fn step_by(t: &[i64], v: usize, w: &[u16], p: usize, k: usize, inverse: bool) -> Stop
    requires { StepTables t.now v w.now × Real v t.now p × (k ≤ 2 ^ 62) }
    ensures { Ran v t.now (pick inverse P Q) p k result }
{
    let mut at = p;
    let mut count: usize = 0;
    for _block in 0..k {
        let to = block_end(t, v, w, at, inverse);
        count += letters(t, v, w, at, to);
        at = to;
    }
    Stop { at, count }
}

// The same, with a loop for each direction: which of the tables is read is known before it.
fn step(t: &[i64], v: usize, w: &[u16], p: usize, k: usize, inverse: bool) -> Stop
    requires { StepTables t.now v w.now × Real v t.now p × (k ≤ 2 ^ 62) }
    ensures { Ran v t.now (pick inverse P Q) p k result }
{
    if inverse {
        return step_by(t, v, w, p, k, true);
    }
    step_by(t, v, w, p, k, false)
}

// Whether k blocks are better walked one by one: they are few, or the round of p has no places yet and isn't worth it.
fn is_short(r: &[u16], v: usize, p: usize, k: usize) -> bool
    requires { (p < length r.now) × (v ≤ 1023) × (p < 4096) }
{
    k <= 8 || (r[p] == 0 && k < 16 * v)
}

// Where the round is entered that k blocks from p go along: at p, or at S p where they are blocks of S Q⁻¹.
fn entrance(t: &[i64], v: usize, w: &[u16], p: usize, inverse: bool) -> usize
    requires { StepTables t.now v w.now × Real v t.now p }
    ensures { Entrance v t.now p inverse result }
{
    if inverse {
        return next(t, v, w, p);
    }
    p
}

// k blocks of S Q⁻¹ from p: S, which leads to u, k blocks of S Q backward, and S.
fn run_back(t: &[i64], v: usize, w: &[u16], r: &[u16], p: usize, u: usize, k: usize) -> Stop
    requires { StepTables t.now v w.now × HasPlace v t.now r.now u × Real v t.now p
        × Entrance v t.now p true u × (k ≤ 2 ^ 62) }
    ensures { Ran v t.now P p k result }
{
    let s = follow_back(t, v, r, u, k);
    let out = letters_of_s(t, v, w, p);
    let twice = letters_of_s(t, v, w, s.at);
    Stop {
        at: next(t, v, w, s.at),
        count: out + s.count - twice,
    }
}

// k blocks of S Q from p, or of S Q⁻¹ where `inverse` holds.
fn run(t: &[i64], v: usize, w: &[u16], r: &mut [u16], p: usize, k: usize, inverse: bool) -> Stop
    requires { StepTables t.now v w.now × Rounds v t.now r.old × Real v t.now p × (k ≤ 2 ^ 62) }
    ensures { Ran v t.now (pick inverse P Q) p k result × Rounds v t.now r.new }
{
    let u = entrance(t, v, w, p, inverse);
    if is_short(r, v, u, k) {
        return step(t, v, w, p, k, inverse);
    }
    place(t, v, w, r, u);
    if inverse {
        return run_back(t, v, w, r, p, u, k);
    }
    follow(t, v, r, p, k)
}

// ---- what is left

// How many blocks the next run has: as often as one row can be taken from the other such that something is left.
fn next_run(way: Way) -> u64
    requires { OneProper (form_of way) }
    ensures { NextRun (form_of way) result }
{
    let upper = way.p + way.q;
    let lower = way.r + way.s;
    if upper < lower {
        return (lower - 1) / upper;
    }
    (upper - 1) / lower
}

// The state behind k blocks of S Q, or of S Q⁻¹ where `inverse` holds, which end at s. The sign isn't followed.
fn arrive(t: &[i64], v: usize, way: Way, k: u64, s: Stop, inverse: bool) -> Way
    requires { IsSymbol v t.now × Sound v t.now (2 ^ 63) way × RunTakes inverse k (form_of way)
        × Ran v t.now (pick inverse P Q) way.at k s }
    ensures { Ahead v t.now way result × (total (form_of result) < total (form_of way)) }
{
    let count = way.count + s.count;
    let behind = Way {
        at: s.at,
        count,
        ..way
    };
    take(behind, k, inverse)
}

// The next run, of k blocks, one by one.
fn stride(t: &[i64], v: usize, w: &[u16], way: Way, k: u64) -> Way
    requires { StepTables t.now v w.now × Sound v t.now (2 ^ 63) way × NextRun (form_of way) k }
    ensures { Ahead v t.now way result × (total (form_of result) < total (form_of way)) }
{
    let inverse = way.p + way.q < way.r + way.s;
    let s = step(t, v, w, way.at, k as usize, inverse);
    arrive(t, v, way, k, s, inverse)
}

// The next run, of k blocks, by the tables of rounds.
fn leap(t: &[i64], v: usize, w: &[u16], r: &mut [u16], way: Way, k: u64) -> Way
    requires { StepTables t.now v w.now × Rounds v t.now r.old × Sound v t.now (2 ^ 63) way
        × NextRun (form_of way) k }
    ensures { Ahead v t.now way result × (total (form_of result) < total (form_of way))
        × Rounds v t.now r.new }
{
    let inverse = way.p + way.q < way.r + way.s;
    let s = run(t, v, w, r, way.at, k as usize, inverse);
    arrive(t, v, way, k, s, inverse)
}

// ---- all runs

// The walk up to its first long run, or its last S.
fn walk_near(t: &[i64], v: usize, w: &[u16], way: Way) -> Way
    requires { StepTables t.now v w.now × Sound v t.now (2 ^ 63) way }
    ensures { Ahead v t.now way result }
{
    let mut now = way;
    // It stays `while`: how many runs there are shows in the walk, as the quotients of a Euclidean algorithm.
    while is_proper(now) {
        let k = next_run(now);
        if 16 * (v as u64) <= k {
            return now;
        }
        now = stride(t, v, w, now, k);
    }
    now
}

// The walk up to its last S, by the tables of rounds.
fn walk_far(t: &[i64], v: usize, w: &[u16], r: &mut [u16], way: Way) -> Way
    requires { StepTables t.now v w.now × Rounds v t.now r.old × Sound v t.now (2 ^ 63) way }
    ensures { Ahead v t.now way result × (proper_of (form_of result) ≡ false)
        × Rounds v t.now r.new }
{
    let mut now = way;
    // It stays `while`, as in `walk_near`.
    while is_proper(now) {
        let k = next_run(now);
        now = leap(t, v, w, r, now, k);
    }
    now
}

// The same with tables of its own.
fn walk_alone(t: &[i64], v: usize, w: &[u16], way: Way) -> Way
    requires { StepTables t.now v w.now × Sound v t.now (2 ^ 63) way }
    ensures { Ahead v t.now way result × (proper_of (form_of result) ≡ false) }
{
    let mut r = [0u16; 20481];
    walk_far(t, v, w, &mut r, way)
}

// The walk up to its last S. No tables are made where all runs are short.
fn walk_on(t: &[i64], v: usize, w: &[u16], way: Way) -> Way
    requires { StepTables t.now v w.now × Sound v t.now (2 ^ 63) way }
    ensures { Ahead v t.now way result × (proper_of (form_of result) ≡ false) }
{
    let near = walk_near(t, v, w, way);
    if is_proper(near) {
        return walk_alone(t, v, w, near);
    }
    near
}

// Where the walk along m from home ends, and how many letters it writes. Nothing is stored in `out`.
pub fn tally(
    t: &[i64],
    v: usize,
    w: &[u16],
    m: [i64; 4],
    home: usize,
    out: &mut [i16],
    start: usize,
) -> Stop
    requires { StepTables t.now v w.now × Real v t.now home × (det (of_list m) ≡ pos 1)
        × Small (2 ^ 60) (of_list m) }
    ensures { WalkTallied v t.now (of_list m) home result × (out.new ≡ out.old) }
{
    let begun = begin(t, v, w, m, home, out, start, 0);
    let way = walk_on(t, v, w, begun);
    let end = finish(t, v, w, way, out, start, 0);
    Stop {
        at: end.at,
        count: end.count,
    }
}

// The same with tables of rounds that are lent, and kept for the next walk.
pub fn tally_by(
    t: &[i64],
    v: usize,
    w: &[u16],
    r: &mut [u16],
    m: [i64; 4],
    home: usize,
    out: &mut [i16],
    start: usize,
) -> Stop
    requires { StepTables t.now v w.now × Rounds v t.now r.old × Real v t.now home
        × (det (of_list m) ≡ pos 1) × Small (2 ^ 60) (of_list m) }
    ensures { WalkTallied v t.now (of_list m) home result × (out.new ≡ out.old)
        × Rounds v t.now r.new }
{
    let begun = begin(t, v, w, m, home, out, start, 0);
    let way = walk_far(t, v, w, r, begun);
    let end = finish(t, v, w, way, out, start, 0);
    Stop {
        at: end.at,
        count: end.count,
    }
}
