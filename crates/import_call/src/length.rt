// The length of a symbol's table, before the symbol is made: by the number of points and those that R fixes.
ghost use Rattle.std.specs.Prelude.{◌≡◌, ◌≤◌, length};
ghost use Rattle.figures.specs.Cusps.{fixed_points};
ghost use Rattle.import_call.specs.Import.{needed_length};

use permutations::wide;

// How many points R fixes.
fn fixed_points(r: &[u32]) -> usize
    requires { length r.now ≤ 3066 }
    ensures { (result ≡ fixed_points r.now) × (result ≤ length r.now) }
{
    let mut count: usize = 0;
    for i in 0..r.len() {
        let x = wide(r[i]);
        if x == i {
            count += 1;
        }
    }
    count
}

// The length of the table of (index - e3)/3 + 1 vertices.
pub(crate) fn needed_length(r: &[u32]) -> usize
    requires { length r.now ≤ 3066 }
    ensures { result ≡ needed_length r.now }
{
    let e = fixed_points(r);
    let v = (r.len() - e) / 3 + 1;
    3 * v + 1
}
