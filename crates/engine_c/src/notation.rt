// Permutation pairs in cycle notation.
ghost use Rattle.call.specs.Call.{Call};
ghost use Rattle.engine.specs.CycleCalls.{read_cycles_call, write_cycles_call};

// The tables of S and R from a text in cycle notation, each from the front of its space.
#[unsafe(no_mangle)]
pub extern "C" fn farey_read_cycles(
    text: &[u8],
    s: &mut [u32],
    r: &mut [u32],
    place: &mut usize,
) -> u64
    ensures { Call (read_cycles_call text.now s r) result place.new }
{
    engine::notation::farey_read_cycles(text, s, r, place)
}

// The tables s and r in cycle notation, from the front of out.
#[unsafe(no_mangle)]
pub extern "C" fn farey_write_cycles(s: &[u32], r: &[u32], out: &mut [u8], place: &mut usize) -> u64
    ensures { Call (write_cycles_call s.now r.now out) result place.new }
{
    engine::notation::farey_write_cycles(s, r, out, place)
}
