// A finite set with two maps S and R: the numbering of docs/CONVENTIONS.md, and the tables of S, R and T by number.
// Nothing here knows of polygons: whoever calls fills two tables of images in the work space. The functions have
// `requires`, for they are called from inside the engine. The figures of the tables are in the crate `figures`.
#![tactic(auto)]

ghost use Rattle.std.specs.Prelude.{◌≡◌, [], ◌∷◌, ◌++◌, ◌+◌, ◌<◌, length, drop};
ghost use Rattle.numbering.specs.Find.{is_in};
ghost use Rattle.numbering.specs.Order.{add, visit};
ghost use Rattle.numbering.specs.Table.{image_at, renamed, ◌then_table◌};
ghost use Rattle.numbering.specs.Inner.Space.{SIGMA, RHO, put_to};
ghost use Rattle.call.specs.Space.{entries};
ghost use Rattle.numbering.specs.Inner.Marks.{listed, Sparse, NowListed, Fresh, Visit, Images, order_in, Renames};
ghost use Rattle.numbering.specs.Inner.Marks.{Composes, TablesLeft, Copies};

// The places of the tables in the work space (specs/Space.antt says what each holds).
pub const S_TABLE: usize = 4096;

pub const SIGMA: usize = 8192;

pub const WIDTHS: usize = 8192;

pub const RHO: usize = 12288;

pub const NUMBER: usize = 16384;

pub const ORDER: usize = 20480;

pub const R_TABLE: usize = 24576;

pub const T_TABLE: usize = 28672;

// Whether the point x has a number. What stands at an x without one does not matter: it is looked up and looked back.
pub fn has(w: &[u16], size: usize, x: usize, n: usize) -> bool
    requires sparse { Sparse size n w.now }
    requires x_lt_size { x < size }
    ensures { result ≡ is_in (listed n w.now) x }
{
    let k = usize::from(w[NUMBER + x]);
    k < n && usize::from(w[ORDER + k]) == x
}

// The point x, which has no number, takes the number n.
pub fn push(w: &mut [u16], size: usize, x: usize, n: usize)
    requires { Fresh size n x w.old }
    ensures { NowListed size w.old w.new (listed n w.old ++ (x ∷ [])) (n + 1) }
{
    w[NUMBER + x] = n as u16;
    w[ORDER + n] = x as u16;
}

// The point x takes the next free number if it is new. How many have a number now.
fn enter(w: &mut [u16], size: usize, x: usize, n: usize) -> usize
    requires sparse { Sparse size n w.old }
    requires x_lt_size { x < size }
    ensures { NowListed size w.old w.new (add (listed n w.old) x) result }
{
    if has(w, size, x, n) {
        return n;
    }
    push(w, size, x, n);
    n + 1
}

// The S image and next the R image of the point with the number i take the next free number if new.
fn visit_at(w: &mut [u16], size: usize, i: usize, n: usize) -> usize
    requires { Visit size n i w.old }
    ensures { NowListed size w.old w.new
        (visit (image_at (entries SIGMA size w.old)) (image_at (entries RHO size w.old))
        (listed n w.old) i) result }
{
    let x = usize::from(w[ORDER + i]);
    let s = usize::from(w[SIGMA + x]);
    let r = usize::from(w[RHO + x]);
    let k = enter(w, size, s, n);
    enter(w, size, r, k)
}

// The numbering from start. How many points have a number; ORDER lists them by number.
fn number(w: &mut [u16], start: usize, size: usize) -> usize
    requires { Images start size w.old }
    ensures { NowListed size w.old w.new (order_in start size w.old) result }
{
    push(w, size, start, 0);
    let mut n: usize = 1;
    let mut i: usize = 0;
    // a `while`: its bound grows with each point that is listed
    while i < n {
        n = visit_at(w, size, i, n);
        i += 1;
    }
    n
}

// The table at `to`: the n entries at a first, and then the table of m entries at b. It may take the place of the one
// at a.
pub fn compose(w: &mut [u16], a: usize, b: usize, to: usize, n: usize, m: usize)
    requires { Composes a b to n m w.old }
    ensures { w.new
        ≡ put_to w.old to (entries a n w.old then_table entries b m w.old) n }
{
    for j in 0..n {
        let x = usize::from(w[a + j]);
        w[to + j] = w[b + x];
    }
}

// The table at `to`: the map in the table at `from`, renamed by the numbers of its n positions. It is made in its
// place, in two steps: the images of the positions, and then their numbers.
fn rename(w: &mut [u16], from: usize, to: usize, size: usize, n: usize)
    requires { Renames from to size n w.old }
    ensures { w.new
        ≡ put_to w.old to (renamed (listed n w.old) (image_at (entries from size w.old)))
        n }
{
    compose(w, ORDER, from, to, n, size);
    compose(w, to, NUMBER, to, n, size);
}

// The numbering from start, and the tables of S, R and T by number. How many numbers there are.
pub fn tables(w: &mut [u16], start: usize, size: usize) -> usize
    requires { Images start size w.old }
    ensures { TablesLeft start size w.old w.new result }
{
    let n = number(w, start, size);
    rename(w, SIGMA, S_TABLE, size, n);
    rename(w, RHO, R_TABLE, size, n);
    compose(w, S_TABLE, R_TABLE, T_TABLE, n, n);
    n
}

// The table of n entries at `off`, at the front of out.
pub fn copy_out(w: &[u16], off: usize, n: usize, out: &mut [u32])
    requires { Copies off n w.now out.old }
    ensures { out.new ≡ entries off n w.now ++ drop n out.old }
{
    for j in 0..n {
        out[j] = u32::from(w[off + j]);
    }
}
