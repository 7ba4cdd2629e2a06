// A list of pairs of numbers in the work space, numbered as they are met. A pair is found again by its bucket: the
// pairs of a bucket are in a chain, the last one first. specs/Inner/Pairs.antt says what stands in the work space. The
// functions have `requires`, for they are called from inside the engine.
#![tactic(auto)]

ghost use Rattle.std.specs.Prelude.{◌≡◌, ◌≤◌, ◌<◌, length};
ghost use Rattle.call.specs.Space.{work_length};
ghost use Rattle.buckets.specs.Inner.Pairs.{buckets, bucket_of, BucketsBegun, SamePair, SeekSomePair};
ghost use Rattle.buckets.specs.Inner.Pairs.{PairSought, PushPair, with_pair, EnterPair, PairEntered};

// The places of the tables in the work space.
pub const FORMER: usize = 8192;

pub const LATTER: usize = 12288;

pub const LAST: usize = 16384;

pub const BEFORE: usize = 20480;

// How many buckets there are.
pub const BUCKETS: usize = 4096;

// What `enter` answers: the place of the pair, and how many there are now.
#[derive(Clone, Copy)]
pub struct Entry {
    pub place: usize,
    pub count: usize,
}

// No bucket has a pair.
pub fn begin(w: &mut [u16])
    requires { work_length ≤ length w.old }
    ensures { BucketsBegun buckets w.old w.new }
{
    w[LAST..LAST + BUCKETS].fill(0);
}

// The bucket of the pair of x and y.
fn bucket(m: usize, x: u16, y: u16) -> usize
    requires { m ≤ 65536 }
    ensures { (result ≡ bucket_of m x y) × (result < buckets) }
{
    (usize::from(x) * m + usize::from(y)) % BUCKETS
}

// Whether the pair at q is that of x and y.
fn same_pair(w: &[u16], q: usize, x: u16, y: u16) -> bool
    requires { (work_length ≤ length w.now) × (q < 4096) }
    ensures { SamePair w.now q x y result }
{
    w[FORMER + q] == x && w[LATTER + q] == y
}

// The place of the pair of x and y, whose bucket is b, if it has one.
fn find(w: &[u16], m: usize, b: usize, x: u16, y: u16) -> Option<usize>
    requires { SeekSomePair (bucket_of m) w.now b x y }
    ensures { PairSought (bucket_of m) w.now b x y result }
{
    let mut p = usize::from(w[LAST + b]);
    // a `while`: it goes along the links of a chain
    while 0 < p {
        let q = p - 1;
        if same_pair(w, q, x, y) {
            return Some(q);
        }
        p = usize::from(w[BEFORE + q]);
    }
    None
}

// The pair of x and y gets the place i, at the head of the chain of the bucket b.
fn push(w: &mut [u16], b: usize, x: u16, y: u16, i: usize)
    requires { PushPair w.old b i }
    ensures { w.new ≡ with_pair w.old b x y i }
{
    w[FORMER + i] = x;
    w[LATTER + i] = y;
    w[BEFORE + i] = w[LAST + b];
    w[LAST + b] = (i + 1) as u16;
}

// The pair of x and y joins the list, if it is new. Any multiplier m will do; it spreads the pairs over the buckets.
pub fn enter(w: &mut [u16], m: usize, x: u16, y: u16, count: usize) -> Entry
    requires { EnterPair m w.old x y count }
    ensures { PairEntered (bucket_of m) w.old x y count w.new result.place result.count }
{
    let b = bucket(m, x, y);
    if let Some(place) = find(w, m, b, x, y) {
        return Entry { place, count };
    }
    push(w, b, x, y, count);
    Entry {
        place: count,
        count: count + 1,
    }
}
