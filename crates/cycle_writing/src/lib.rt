// Permutation pairs written in cycle notation: specs/Cycles.antt and specs/Bytes.antt say which text an export is,
// specs/Export.antt the steps of the call, and that reading an export returns the tables.
#![tactic(auto)]

ghost use Rattle.std.specs.Prelude.{length};
ghost use Rattle.call.specs.Inner.Fills.{Fills, made_if};
ghost use Rattle.cycle_writing.specs.Bytes.{export_of};
ghost use Rattle.cycle_writing.specs.Export.{export_steps};

use bytes::put_export;
use call::refusal::Refusal;
use length::export_length;

mod bytes;
mod length;
mod start;

// The tables of S and R as text in cycle notation, at the front of the result space: the length of the text; or 12 to
// 15, then 11 with that length.
pub fn write_cycles(s: &[u32], r: &[u32], out: &mut [u8]) -> Result<usize, Refusal>
    ensures { Fills (export_steps s.now r.now out)
        (made_if (length (export_of s.now r.now))) result }
{
    permutations::check(s, r)?;
    let n = export_length(s, r);
    if out.len() < n {
        return Err(Refusal::TooShort(n));
    }
    Ok(put_export(s, r, out))
}
