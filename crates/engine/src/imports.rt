// From permutations to a symbol.
ghost use Rattle.call.specs.Call.{Call};
ghost use Rattle.import_rule.specs.Order.{leftmost, longest_open};
ghost use Rattle.import_symbol.specs.Answer.{order_by};
ghost use Rattle.import_call.specs.Import.{import_call, import_length_call};

use crate::answers::of_filled;

// The symbol of the matrices that fix point 0, by the wide rule or by the rule.
fn symbol_by(
    s: &[u32],
    r: &[u32],
    w: &mut [u16],
    out: &mut [i64],
    wide: bool,
    place: &mut usize,
) -> u64
    ensures { Call (import_call (order_by wide) s.now r.now w out) result place.new }
{
    let said = of_filled(import_call::import_by(s, r, w, out, wide));
    *place = said.place;
    said.number
}

// The symbol of the matrices that fix point 0, from the tables of S and R, from the front of out.
#[unsafe(no_mangle)]
pub extern "C" fn farey_import(
    s: &[u32],
    r: &[u32],
    w: &mut [u16],
    out: &mut [i64],
    place: &mut usize,
) -> u64
    ensures { Call (import_call leftmost s.now r.now w out) result place.new }
{
    symbol_by(s, r, w, out, false, place)
}

// The same by the wide rule.
#[unsafe(no_mangle)]
pub extern "C" fn farey_import_wide(
    s: &[u32],
    r: &[u32],
    w: &mut [u16],
    out: &mut [i64],
    place: &mut usize,
) -> u64
    ensures { Call (import_call longest_open s.now r.now w out) result place.new }
{
    symbol_by(s, r, w, out, true, place)
}

// The length of the table that these two would write.
#[unsafe(no_mangle)]
pub extern "C" fn farey_import_length(s: &[u32], r: &[u32], place: &mut usize) -> u64
    ensures { Call (import_length_call s.now r.now) result place.new }
{
    let said = of_filled(import_call::import_length(s, r));
    *place = said.place;
    said.number
}
