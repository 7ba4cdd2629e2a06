// How often a label was met, up to 3: two labels to a byte, the even one in its low half.
ghost use Rattle.std.specs.Prelude.{◌≡◌, ◌+◌, ◌%◌, ◌≤◌, ◌<◌, length};
ghost use Rattle.symbol.specs.Inner.Marks.{digit, CountedAt};

// What is counted at k.
pub(crate) fn counted(marks: &[u8; 512], k: usize) -> u8
    requires { k < 1024 }
    ensures { result ≡ digit marks.now k }
{
    let m = marks[k / 2];
    if k % 2 == 0 {
        return m % 16;
    }
    m / 16
}

// The byte after m, whose low half isn't full.
fn next(m: u8) -> u8
    requires { m % 16 < 3 }
    ensures { result ≡ m + 1 }
{
    m + 1
}

// Counts one more at k, up to 3.
pub(crate) fn mark(marks: &mut [u8; 512], k: usize)
    requires { (k < 1024) × (length marks.old ≡ 512) }
    ensures { CountedAt marks.old marks.new k }
{
    let m = marks[k / 2];
    if k % 2 == 0 {
        if m % 16 < 3 {
            marks[k / 2] = next(m);
        }
    } else {
        if m / 16 < 3 {
            marks[k / 2] = m + 16;
        }
    }
}
