// What all calls for users have in common: their form (specs/Call.antt), their refusals, and the lent work space.
#![tactic(auto)]

ghost use Rattle.std.specs.Prelude.{◌≡◌};
ghost use Rattle.call.specs.Call.{length_check};

use crate::refusal::Refusal;

pub mod refusal;
pub mod workspace;

// The check of a space of the length `has` in which `needed` entries are to stand.
pub fn room(needed: usize, has: usize) -> Result<(), Refusal>
    ensures { result ≡ length_check needed has }
{
    if has < needed {
        return Err(Refusal::TooShort(needed));
    }
    Ok(())
}
