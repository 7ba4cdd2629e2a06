// A Farey symbol in a lent table: the checks of docs/CONVENTIONS.md, and its sides with their frames and generators.
//
// A table of a symbol with v vertices holds 2v vertex entries and then v + 1 pairings. specs/ says what each call
// returns and leaves.
#![tactic(auto)]

mod counting;

ghost use Rattle.std.specs.Prelude.{◌≡◌, ◌+◌, ◌*◌, ◌≤◌, ◌<◌, pos, length, Ok};
ghost use Rattle.matrix.specs.Matrix.{nth, of_list, to_list, mat_s, mat_q};
ghost use Rattle.matrix.specs.Bounds.{Small};
ghost use Rattle.symbol.specs.Table.{left_num, left_den, right_num, right_den, side_at, frame, gap, carried};
ghost use Rattle.symbol.specs.Table.{pairing_of};
ghost use Rattle.symbol.specs.Check.{eq_z, out_of_range, is_zero, unpaired_in, check3, check4, check5};
ghost use Rattle.symbol.specs.Check.{lacks_odd, check6, check7};
ghost use Rattle.symbol.specs.Inner.Marks.{Noted, Tallied};
ghost use Rattle.symbol.specs.Symbol.{SymbolVerdict};
ghost use Rattle.symbol.specs.Inner.Ready.{SmallSide};

use call::refusal::Refusal;

// A side of the polygon, from a/b on the left to c/d on the right.
#[derive(Clone, Copy)]
pub struct Side {
    pub a: i64,
    pub b: i64,
    pub c: i64,
    pub d: i64,
}

// A vertex num/den of the closed chain: -1/0, then the finite vertices, then 1/0.
#[derive(Clone, Copy)]
pub struct Vertex {
    pub num: i64,
    pub den: i64,
}

// What a side is paired as: an even or an odd side with itself, a free one with the other side of its label.
#[derive(Clone, Copy)]
pub enum Pairing {
    Even,
    Odd,
    Free(usize),
    Bad,
}

// The pairing that x stands for in a symbol of v vertices.
pub fn read_pairing(v: usize, x: i64) -> Pairing
    ensures { result ≡ pairing_of v x }
{
    if x == -2 {
        return Pairing::Even;
    }
    if x == -3 {
        return Pairing::Odd;
    }
    if x < 1 {
        return Pairing::Bad;
    }
    let l = x as usize;
    if v < l - 1 {
        return Pairing::Bad;
    }
    Pairing::Free(l)
}

// The left end of side i.
fn left_end(v: usize, t: &[i64], i: usize) -> Vertex
    requires { (v ≤ 1023) × (2 * v ≤ length t.now) × (i ≤ v) }
    ensures { (result.num ≡ left_num t.now i) × (result.den ≡ left_den t.now i) }
{
    if i == 0 {
        return Vertex { num: -1, den: 0 };
    }
    let k = i - 1;
    Vertex {
        num: t[2 * k],
        den: t[2 * k + 1],
    }
}

// The right end of side i.
fn right_end(v: usize, t: &[i64], i: usize) -> Vertex
    requires { (v ≤ 1023) × (2 * v ≤ length t.now) × (i ≤ v) }
    ensures { (result.num ≡ right_num v t.now i) × (result.den ≡ right_den v t.now i) }
{
    if i < v {
        return Vertex {
            num: t[2 * i],
            den: t[2 * i + 1],
        };
    }
    Vertex { num: 1, den: 0 }
}

// n x m⁻¹ for frames n and m and one of the matrices S and Q.
fn carry(n: [i64; 4], x: [i64; 4], m: [i64; 4]) -> [i64; 4]
    requires { Small 1000000000 (of_list n) × Small 1 (of_list x) × Small 1000000000 (of_list m) }
    ensures { result ≡ to_list (carried (of_list n) (of_list x) (of_list m)) }
{
    let left = matrix::product(n, x);
    let right = matrix::inverse(m);
    matrix::product(left, right)
}

impl Side {
    // Side i of the symbol in t.
    pub fn at(v: usize, t: &[i64], i: usize) -> Side
        requires { (v ≤ 1023) × (2 * v ≤ length t.now) × (i ≤ v) }
        ensures { result ≡ side_at v t.now i }
    {
        let left = left_end(v, t, i);
        let right = right_end(v, t, i);
        Side {
            a: left.num,
            b: left.den,
            c: right.num,
            d: right.den,
        }
    }

    // The frame (c a; d b), which sends infinity and 0 to the side's right and left ends.
    pub(crate) fn frame(self) -> [i64; 4]
        ensures { result ≡ to_list (frame self) }
    {
        [self.c, self.a, self.d, self.b]
    }

    // The neighbour rule: c b - a d is 1.
    pub(crate) fn neighbours(self) -> bool
        requires { SmallSide self }
        ensures { result ≡ eq_z (gap self) (pos 1) }
    {
        let m = self.frame();
        matrix::determinant(m) == 1
    }

    // The generator of an even side: M S M⁻¹, a half turn about a point of the side.
    pub fn even(self) -> [i64; 4]
        requires { SmallSide self }
        ensures { result ≡ to_list (carried (frame self) mat_s (frame self)) }
    {
        carry(self.frame(), matrix::matrix_s(), self.frame())
    }

    // The generator of an odd side: M Q M⁻¹, a turn of order three about a point outside the polygon.
    pub fn odd(self) -> [i64; 4]
        requires { SmallSide self }
        ensures { result ≡ to_list (carried (frame self) mat_q (frame self)) }
    {
        carry(self.frame(), matrix::matrix_q(), self.frame())
    }

    // The generator of a free side and its partner to the right: N S M⁻¹ carries the side to the partner, turned round.
    pub fn free(self, partner: Side) -> [i64; 4]
        requires { SmallSide self × SmallSide partner }
        ensures { result ≡ to_list (carried (frame partner) mat_s (frame self)) }
    {
        carry(partner.frame(), matrix::matrix_s(), self.frame())
    }
}

// Whether the vertex entry at i is out of range.
fn out_of_range(t: &[i64], i: usize) -> bool
    requires { i < length t.now }
    ensures { result ≡ out_of_range t.now i }
{
    let x = t[i];
    x < -1000000000 || 1000000000 < x || (i % 2 == 1 && x < 1)
}

// Whether vertex i is 0/1.
pub fn is_zero(t: &[i64], i: usize) -> bool
    requires { (i ≤ 1023) × (2 * i + 1 < length t.now) }
    ensures { result ≡ is_zero t.now i }
{
    t[2 * i] == 0 && t[2 * i + 1] == 1
}

// Counts one more at the label that x is, if it is one.
fn note(v: usize, x: i64, marks: &mut [u8; 512])
    requires { (v ≤ 1023) × (length marks.old ≡ 512) }
    ensures { Noted v x marks.old marks.new }
{
    if let Pairing::Free(l) = read_pairing(v, x) {
        counting::mark(marks, l - 1);
    }
}

// Counts the labels of all sides.
fn tally(v: usize, p: &[i64], marks: &mut [u8; 512])
    requires { (v ≤ 1023) × (v + 1 ≤ length p.now) × Tallied v p.now 0 marks.old }
    ensures { Tallied v p.now (v + 1) marks.new }
{
    for i in 0..v + 1 {
        note(v, p[i], marks);
    }
}

// Whether side i is neither even nor odd nor one of the two sides of a label.
fn is_unpaired(v: usize, p: &[i64], marks: &[u8; 512], i: usize) -> bool
    requires { (v ≤ 1023) × (i ≤ v) × (v + 1 ≤ length p.now) × Tallied v p.now (v + 1) marks.now }
    ensures { result ≡ unpaired_in v p.now i }
{
    match read_pairing(v, p[i]) {
        Pairing::Even | Pairing::Odd => false,
        Pairing::Free(l) => counting::counted(marks, l - 1) != 2,
        Pairing::Bad => true,
    }
}

// Check 3: each vertex entry is in range.
fn check_entries(v: usize, t: &[i64]) -> Result<(), Refusal>
    requires { (v ≤ 1023) × (2 * v ≤ length t.now) }
    ensures { result ≡ check3 v t.now }
{
    for i in 0..2 * v {
        if out_of_range(t, i) {
            return Err(Refusal::VertexEntry(i));
        }
    }
    Ok(())
}

// Check 4: the ends of each side are neighbours.
fn check_neighbours(v: usize, t: &[i64]) -> Result<(), Refusal>
    requires { (v ≤ 1023) × (2 * v ≤ length t.now) × (check3 v t.now ≡ Ok tt) }
    ensures { result ≡ check4 v t.now }
{
    for i in 0..v + 1 {
        if !Side::at(v, t, i).neighbours() {
            return Err(Refusal::NotNeighbours(i));
        }
    }
    Ok(())
}

// Check 5: some vertex is 0/1.
fn check_zero(v: usize, t: &[i64]) -> Result<(), Refusal>
    requires { (v ≤ 1023) × (2 * v ≤ length t.now) }
    ensures { result ≡ check5 v t.now }
{
    for i in 0..v {
        if is_zero(t, i) {
            return Ok(());
        }
    }
    Err(Refusal::NoZero)
}

// Check 6: each side is even, odd, or one of the two of its label.
fn check_paired(v: usize, p: &[i64]) -> Result<(), Refusal>
    requires { (v ≤ 1023) × (v + 1 ≤ length p.now) }
    ensures { result ≡ check6 v p.now }
{
    let mut marks = [0u8; 512];
    tally(v, p, &mut marks);
    for i in 0..v + 1 {
        if is_unpaired(v, p, &marks, i) {
            return Err(Refusal::BadPairing(i));
        }
    }
    Ok(())
}

// Whether there is just one vertex and no odd side.
fn lacks_odd(v: usize, p: &[i64]) -> bool
    requires { (1 ≤ v) × (v + 1 ≤ length p.now) }
    ensures { result ≡ lacks_odd v p.now }
{
    v == 1 && p[0] != -3 && p[1] != -3
}

// Check 7: a symbol of one vertex has an odd side.
fn check_odd(v: usize, p: &[i64]) -> Result<(), Refusal>
    requires { (1 ≤ v) × (v + 1 ≤ length p.now) }
    ensures { result ≡ check7 v p.now }
{
    if lacks_odd(v, p) {
        return Err(Refusal::NoOddSide);
    }
    Ok(())
}

// Checks 1 to 7 on a table and a number of vertices, whatever they are: the first fault, or that the symbol is
// accepted.
pub fn check(v: usize, t: &[i64]) -> Result<(), Refusal>
    ensures { SymbolVerdict v t.now result }
{
    if v < 1 {
        return Err(Refusal::BadVertexCount);
    }
    if 1023 < v {
        return Err(Refusal::BadVertexCount);
    }
    let n = t.len();
    if n != 3 * v + 1 {
        return Err(Refusal::TableLength(n));
    }
    check_entries(v, t)?;
    check_neighbours(v, t)?;
    check_zero(v, t)?;
    let pairings = &t[2 * v..];
    check_paired(v, pairings)?;
    check_odd(v, pairings)
}
