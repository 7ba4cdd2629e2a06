// One matrix with entries up to 10¹⁸: its word, and whether it is in the group.
ghost use Rattle.call.specs.Call.{Call};
ghost use Rattle.matrix_word.specs.Claim.{matrix_word_call, signed_matrix_word_call, member_call};

// A word whose value is M up to sign, in out from the start place on, or 10: M isn't in the group.
#[unsafe(no_mangle)]
pub extern "C" fn farey_matrix_word(
    v: usize,
    t: &[i64],
    m: &[i64; 4],
    w: &mut [u16],
    out: &mut [i16],
    start: usize,
    place: &mut usize,
) -> u64
    ensures { Call (matrix_word_call v t.now m.now w out start) result place.new }
{
    engine::matrices::farey_matrix_word(v, t, m, w, out, start, place)
}

// The same, with the sign of the word: 1 where its value is M, -1 where it is -M. A refusal leaves the number that was
// there.
#[unsafe(no_mangle)]
pub extern "C" fn farey_signed_matrix_word(
    v: usize,
    t: &[i64],
    m: &[i64; 4],
    w: &mut [u16],
    out: &mut [i16],
    start: usize,
    sign: &mut i64,
    place: &mut usize,
) -> u64
    ensures { Call (signed_matrix_word_call v t.now m.now w out start sign)
        result place.new }
{
    engine::matrices::farey_signed_matrix_word(v, t, m, w, out, start, sign, place)
}

// Whether M is in the group: 1 for yes, 0 for no.
#[unsafe(no_mangle)]
pub extern "C" fn farey_contains_matrix(
    v: usize,
    t: &[i64],
    m: &[i64; 4],
    w: &mut [u16],
    place: &mut usize,
) -> u64
    ensures { Call (member_call v t.now m.now w) result place.new }
{
    engine::matrices::farey_contains_matrix(v, t, m, w, place)
}
