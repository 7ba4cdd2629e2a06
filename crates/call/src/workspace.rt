// The work space that the engine's calls are lent: its length, and how it is left.
ghost use Rattle.std.specs.Prelude.{◌≡◌, length};
ghost use Rattle.call.specs.Space.{zeros};

// The length of the work space, in 16-bit numbers.
pub const WORK: usize = 32768;

// Every number of w is 0, whatever stood there.
#[tactic(auto, unfolding(crate::specs::Space::zeros))]
pub fn clear(w: &mut [u16])
    ensures { w.new ≡ zeros (length w.old) }
{
    w.fill(0);
}

// A 16-bit number as an index.
pub fn index(x: u16) -> usize
    ensures { result ≡ x }
{
    x as usize
}
