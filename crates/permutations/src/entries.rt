// The checks 13 and 14: entries that are no points or come again, and points that S twice or R three times moves.
ghost use Rattle.std.specs.Prelude.{◌≡◌, ℕ, Bool, ◌≤◌, ◌<◌, length};
ghost use Rattle.permutations.specs.Check.{check13, refused_first};

use crate::wide;
use call::refusal::Refusal;

// Check 13: the first entry that is no point, or comes again, is refused.
pub(crate) fn check_table(t: &[u32]) -> Result<(), Refusal>
    requires { length t.now ≤ 3066 }
    ensures { result ≡ check13 t.now }
{
    let mut seen = [false; 3072];
    for (i, y) in t.iter().enumerate() {
        let x = wide(*y);
        if t.len() <= x || seen[x] {
            return Err(Refusal::TableEntry(i));
        }
        seen[x] = true;
    }
    Ok(())
}

// Check 14: the first point of t that is moved is refused.
pub(crate) fn check_order<F: Fn(usize) -> bool>(t: &[u32], is_moved: F) -> Result<(), Refusal>
    requires { F.IsAlwaysCallable is_moved }
    ensures { (moved : ℕ → Bool)
        → ((x : ℕ) (b : Bool) → x < length t.now → F.post is_moved x b → b ≡ moved x)
        → result ≡ refused_first moved (length t.now) }
{
    for x in 0..t.len() {
        if is_moved(x) {
            return Err(Refusal::WrongOrder(x));
        }
    }
    Ok(())
}
