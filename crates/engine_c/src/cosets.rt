// Yes or no: whether two matrices share a right coset, for one pair and for many.
ghost use Rattle.call.specs.Call.{Call};
ghost use Rattle.same_coset.specs.Answer.{same_coset_call};
ghost use Rattle.same_coset.specs.Pairs.{same_cosets_call};

// Whether A and B share a right coset: 1 for yes, 0 for no.
#[unsafe(no_mangle)]
pub extern "C" fn farey_same_coset(
    v: usize,
    t: &[i64],
    a: &[i64; 4],
    b: &[i64; 4],
    w: &mut [u16],
    place: &mut usize,
) -> u64
    ensures { Call (same_coset_call v t.now a.now b.now w)
        result place.new }
{
    engine::cosets::farey_same_coset(v, t, a, b, w, place)
}

// The same for all pairs in p, two numbers each, from the front of lines.
#[unsafe(no_mangle)]
pub extern "C" fn farey_same_cosets(
    v: usize,
    t: &[i64],
    p: &[i64],
    w: &mut [u16],
    lines: &mut [i64],
    place: &mut usize,
) -> u64
    ensures { Call (same_cosets_call v t.now p.now w lines) result place.new }
{
    engine::cosets::farey_same_cosets(v, t, p, w, lines, place)
}
