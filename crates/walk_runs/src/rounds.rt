// The tables of rounds of S Q over the positions of a symbol: each round is entered when a run first meets it. Where a
// run ends and how many letters it writes comes from them by one division. specs/Inner/Rounds.antt has their places.
ghost use Rattle.std.specs.Prelude.{◌≡◌, ◌+◌, ◌-◌, ◌*◌, ◌/◌, ◌%◌, ◌^◌, ◌≤◌, ◌<◌, length};
ghost use Rattle.matrix.specs.Words.{S, Q};
ghost use Rattle.symbol.specs.Symbol.{IsSymbol};
ghost use Rattle.polygon.specs.Cut.{places};
ghost use Rattle.coset.specs.Positions.{Real, written, letters_of};
ghost use Rattle.coset.specs.Inner.Steps.{StepTables};
ghost use Rattle.walk_runs.specs.Inner.Rounds.{POSITION, rounds_length, round_place, sum_in};
ghost use Rattle.walk_runs.specs.Runs.{round_onward, backward, between};
ghost use Rattle.walk_runs.specs.Inner.Rounds.{RoundsListed, Closed, Rounds, RoundOpened, RoundEntered};
ghost use Rattle.walk_runs.specs.Inner.Rounds.{EndsFilled, HasPlace};
ghost use Rattle.walk_runs.specs.Inner.Rounds.{Located, Sums};
ghost use Rattle.walk_runs.specs.Inner.Tally.{Ran, Led};

use crate::Stop;
use call::workspace::index;
use coset::steps::{block_end, letter};

pub const POSITION: usize = 4096;

pub const BEGINNING: usize = 8192;

pub const ENDING: usize = 12288;

pub const SUM: usize = 16384;

pub const ENTERED: usize = 20480;

// How many letters a letter is, 0 for none.
fn letters_in(letter: i16) -> usize
    ensures { result ≡ length (letters_of letter) }
{
    usize::from(letter != 0)
}

// How many letters Q writes at p: one at an outer face.
fn letters_of_turn(t: &[i64], v: usize, p: usize) -> usize
    requires { IsSymbol v t.now }
    ensures { result ≡ length (written v t.now Q p) }
{
    usize::from(p >= 3 * (v - 1))
}

// How many letters S writes at the real position p.
pub fn letters_of_s(t: &[i64], v: usize, w: &[u16], p: usize) -> usize
    requires { StepTables t.now v w.now × Real v t.now p }
    ensures { result ≡ length (written v t.now S p) }
{
    let z = letter(t, v, w, p);
    letters_in(z)
}

// How many letters S writes at the real position p and a turn at `to`: those of a block from p that ends there.
pub fn letters(t: &[i64], v: usize, w: &[u16], p: usize, to: usize) -> usize
    requires { StepTables t.now v w.now × Real v t.now p }
    ensures { result ≡ length (written v t.now S p) + length (written v t.now Q to) }
{
    let first = letters_of_s(t, v, w, p);
    first + letters_of_turn(t, v, to)
}

// ---- a round is entered

// The position x at the place n, in the round that begins at the place a; s letters are written before the next place.
fn enter(r: &mut [u16], x: usize, n: usize, a: usize, s: usize)
    requires { (length r.old ≡ rounds_length) × (x < POSITION) × (n < 4090) × (a ≤ n) × (s ≤ 65535) }
    ensures { RoundEntered r.old x n a s r.new }
{
    let next = n + 1;
    r[x] = next as u16;
    r[POSITION + n] = x as u16;
    r[BEGINNING + n] = a as u16;
    r[SUM + next] = s as u16;
}

// The round of p from the place a on, without its ends: returns the place behind it. S Q leads no two positions to one,
// so the first position met that has a place is p itself.
fn open_round(t: &[i64], v: usize, w: &[u16], r: &mut [u16], p: usize, a: usize) -> usize
    requires { StepTables t.now v w.now × RoundsListed v t.now r.old a × Closed v t.now r.old a
        × Real v t.now p × (round_place r.old p ≡ 0) }
    ensures { RoundOpened v t.now r.new p a result }
{
    let mut n = a;
    let mut x = p;
    // It stays `while`: the round ends where it comes back to a position that has a place.
    while r[x] == 0 {
        let to = block_end(t, v, w, x, false);
        let more = letters(t, v, w, x, to);
        let s = index(r[SUM + n]) + more;
        enter(r, x, n, a, s);
        x = to;
        n += 1;
    }
    n
}

// The end n at the places from a on.
fn fill_ends(r: &mut [u16], a: usize, n: usize)
    requires { (length r.old ≡ rounds_length) × (a ≤ n) × (n ≤ 4090) }
    ensures { EndsFilled a n n r.old r.new }
{
    for y in a..n {
        r[ENDING + y] = n as u16;
    }
}

// The round of p, which has no place yet.
fn enter_round(t: &[i64], v: usize, w: &[u16], r: &mut [u16], p: usize)
    requires { StepTables t.now v w.now × Rounds v t.now r.old × Real v t.now p
        × (round_place r.old p ≡ 0) }
    ensures { HasPlace v t.now r.new p }
{
    let a = index(r[ENTERED]);
    let n = open_round(t, v, w, r, p, a);
    fill_ends(r, a, n);
    r[ENTERED] = n as u16;
}

// The position p with a place, that of its round if it has none yet.
pub fn place(t: &[i64], v: usize, w: &[u16], r: &mut [u16], p: usize)
    requires { StepTables t.now v w.now × Rounds v t.now r.old × Real v t.now p }
    ensures { HasPlace v t.now r.new p }
{
    if r[p] == 0 {
        enter_round(t, v, w, r, p);
    }
}

// ---- a run

// A place, the first one of its round, and the one behind that round.
#[derive(Clone, Copy)]
pub struct Arc {
    pub at: usize,
    pub first: usize,
    pub end: usize,
}

// Where the position p stands.
fn locate(r: &[u16], p: usize) -> Arc
    requires { (length r.now ≡ rounds_length) × (p < POSITION) × (0 < round_place r.now p)
        × (round_place r.now p ≤ 4090) }
    ensures { Located r.now p result }
{
    let at = index(r[p]) - 1;
    let first = index(r[BEGINNING + at]);
    let end = index(r[ENDING + at]);
    Arc { at, first, end }
}

// How many letters are written from the place i to the place j.
fn sum_from(r: &[u16], i: usize, j: usize, b: usize) -> usize
    requires { Sums r.now b × (i ≤ j) × (j ≤ b) }
    ensures { (result ≡ sum_in r.now j - sum_in r.now i) × (result ≤ 8180) }
{
    let x = index(r[SUM + i]);
    let y = index(r[SUM + j]);
    y - x
}

impl Arc {
    // The place j steps onward in its round.
    fn onward(self, j: usize) -> usize
        requires { (self.first ≤ self.at) × (self.at < self.end) × (self.end ≤ 4090) × (j < self.end - self.first) }
        ensures { result ≡ round_onward self.first self.end self.at j }
    {
        let next = self.at + j;
        if next < self.end {
            return next;
        }
        next - (self.end - self.first)
    }

    // The place j steps backward.
    fn backward(self, j: usize) -> usize
        requires { (self.first ≤ self.at) × (self.at < self.end) × (self.end ≤ 4090) × (j < self.end - self.first) }
        ensures { result ≡ backward self.first self.end self.at j }
    {
        if self.first + j <= self.at {
            return self.at - j;
        }
        self.at + (self.end - self.first) - j
    }

    // How many letters are written from it to the place j steps onward.
    fn count_between(self, r: &[u16], j: usize) -> usize
        requires { Sums r.now self.end × (self.first ≤ self.at) × (self.at < self.end) × (j < self.end - self.first) }
        ensures { (result ≡ between (sum_in r.now) self.first self.end self.at j) × (result ≤ 16360) }
    {
        let next = self.at + j;
        if next < self.end {
            return sum_from(r, self.at, next, self.end);
        }
        let back = next - (self.end - self.first);
        let more = sum_from(r, self.first, back, self.end);
        let first = sum_from(r, self.at, self.end, self.end);
        first + more
    }

    // How many letters are written in so many times round and j steps more.
    fn count_after(self, r: &[u16], times: usize, j: usize) -> usize
        requires { Sums r.now self.end × (self.first ≤ self.at) × (self.at < self.end) × (j < self.end - self.first)
            × (times * (sum_in r.now self.end - sum_in r.now self.first) ≤ 2 ^ 63) }
        ensures { result ≡ times * (sum_in r.now self.end - sum_in r.now self.first)
            + between (sum_in r.now) self.first self.end self.at j }
    {
        let round = sum_from(r, self.first, self.end, self.end);
        let more = self.count_between(r, j);
        times * round + more
    }
}

// Where k blocks of S Q lead from p.
pub fn follow(t: &[i64], v: usize, r: &[u16], p: usize, k: usize) -> Stop
    requires { IsSymbol v t.now × HasPlace v t.now r.now p × Real v t.now p × (k ≤ 2 ^ 62) }
    ensures { Ran v t.now Q p k result }
{
    let arc = locate(r, p);
    let d = arc.end - arc.first;
    let j = k % d;
    let times = k / d;
    let count = arc.count_after(r, times, j);
    let z = arc.onward(j);
    Stop {
        at: index(r[POSITION + z]),
        count,
    }
}

// From where k blocks of S Q lead to p.
pub fn follow_back(t: &[i64], v: usize, r: &[u16], p: usize, k: usize) -> Stop
    requires { IsSymbol v t.now × HasPlace v t.now r.now p × Real v t.now p × (k ≤ 2 ^ 62) }
    ensures { Led v t.now p k result }
{
    let arc = locate(r, p);
    let d = arc.end - arc.first;
    let j = k % d;
    let times = k / d;
    let z = arc.backward(j);
    let from = Arc { at: z, ..arc };
    let count = from.count_after(r, times, j);
    Stop {
        at: index(r[POSITION + z]),
        count,
    }
}
