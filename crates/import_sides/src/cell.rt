// The five numbers of a side in the work space: the right end's numerator plus 10^9 and its denominator, each in two
// numbers, and the point.
ghost use Rattle.std.specs.Prelude.{◌≡◌, ◌+◌, ◌≤◌, ◌<◌, ◌/◌, ◌%◌, length, set};
ghost use Rattle.import_sides.specs.Inner.Work.{two_cells, point_at, cell_set};

// A 16-bit number among those of 64 bits.
pub fn long(x: u16) -> u64
    ensures { (result ≡ x) × (result < 65536) }
{
    x as u64
}

// A 16-bit number as a point.
pub fn short(x: u16) -> usize
    ensures { (result ≡ x) × (result < 65536) }
{
    x as usize
}

// The point of the side whose numbers begin there.
pub fn point_at(w: &[u16], at: usize) -> usize
    requires { (at + 5 ≤ length w.now) × (at < 32768) }
    ensures { (result ≡ point_at w.now at) × (result < 65536) }
{
    short(w[at + 4])
}

// The number that stands in two cells.
pub fn number_at(w: &[u16], at: usize) -> u64
    requires { (at + 2 ≤ length w.now) × (at < 32768) }
    ensures { (result ≡ two_cells w.now at) × (result < 4294967296) }
{
    let high = long(w[at]);
    let low = long(w[at + 1]);
    high * 65536 + low
}

// Puts x into two cells.
fn put_number(w: &mut [u16], at: usize, x: u64)
    requires { (at + 2 ≤ length w.old) × (at < 32768) × (x < 4294967296) }
    ensures { w.new ≡ set (set w.old at (x / 65536)) (at + 1) (x % 65536) }
{
    w[at] = (x / 65536) as u16;
    w[at + 1] = (x % 65536) as u16;
}

// Puts the five numbers of a side.
pub fn put_cell(w: &mut [u16], at: usize, e: u64, d: u64, m: usize)
    requires { (at + 5 ≤ length w.old) × (at < 32763) × (e < 4294967296) × (d < 4294967296) × (m < 65536) }
    ensures { w.new ≡ cell_set w.old at e d m }
{
    put_number(w, at, e);
    put_number(w, at + 2, d);
    w[at + 4] = m as u16;
}
