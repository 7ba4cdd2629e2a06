// What the calls ask of a symbol and of the work space, before anything is made.
ghost use Rattle.std.specs.Prelude.{◌≡◌};
ghost use Rattle.pairing.specs.Inner.Admitted.{admitted_of, both_admitted};

use call::refusal::Refusal;
use symbol::check;

// The checks 1 to 7 of the symbol in t, and then the length of the work space.
pub fn admit(v: usize, t: &[i64], work: usize) -> Result<(), Refusal>
    ensures { result ≡ admitted_of v t.now work }
{
    check(v, t)?;
    if work < call::workspace::WORK {
        return Err(Refusal::TooShort(call::workspace::WORK));
    }
    Ok(())
}

// The checks 1 to 7 of the symbol in t, then those of the symbol in u, and then the length of the work space.
pub fn admit_both(v: usize, t: &[i64], n: usize, u: &[i64], work: usize) -> Result<(), Refusal>
    ensures { result ≡ both_admitted v t.now n u.now work }
{
    check(v, t)?; // the first symbol comes first
    admit(n, u, work)
}
