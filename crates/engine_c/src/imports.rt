// From permutations to a symbol.
ghost use Rattle.call.specs.Call.{Call};
ghost use Rattle.import_rule.specs.Order.{leftmost, longest_open};
ghost use Rattle.import_symbol.specs.Answer.{order_by};
ghost use Rattle.import_call.specs.Import.{import_call, import_length_call};

// The symbol of the matrices that fix point 0, from the tables of S and R, from the front of out.
#[unsafe(no_mangle)]
pub extern "C" fn farey_import(
    s: &[u32],
    r: &[u32],
    w: &mut [u16],
    out: &mut [i64],
    place: &mut usize,
) -> u64
    ensures { Call (import_call leftmost s.now r.now w out) result place.new }
{
    engine::imports::farey_import(s, r, w, out, place)
}

// The same by the wide rule.
#[unsafe(no_mangle)]
pub extern "C" fn farey_import_wide(
    s: &[u32],
    r: &[u32],
    w: &mut [u16],
    out: &mut [i64],
    place: &mut usize,
) -> u64
    ensures { Call (import_call longest_open s.now r.now w out) result place.new }
{
    engine::imports::farey_import_wide(s, r, w, out, place)
}

// The length of the table that these two would write.
#[unsafe(no_mangle)]
pub extern "C" fn farey_import_length(s: &[u32], r: &[u32], place: &mut usize) -> u64
    ensures { Call (import_length_call s.now r.now) result place.new }
{
    engine::imports::farey_import_length(s, r, place)
}
