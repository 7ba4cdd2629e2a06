// Pair queries, single and by the sheet.
ghost use Rattle.call.specs.Call.{Call};
ghost use Rattle.word.specs.Claim.{query_call, signed_query_call};
ghost use Rattle.sheets.specs.Meaning.{sheet_call};

// A word that takes A to B up to sign, in out from the start place on, or 10: there is none.
#[unsafe(no_mangle)]
pub extern "C" fn farey_query(
    v: usize,
    t: &[i64],
    a: &[i64; 4],
    b: &[i64; 4],
    w: &mut [u16],
    out: &mut [i16],
    start: usize,
    place: &mut usize,
) -> u64
    ensures { Call (query_call v t.now a.now b.now w out start)
        result place.new }
{
    engine::queries::farey_query(v, t, a, b, w, out, start, place)
}

// The same, with the sign of the word: 1 where the word times A is B, -1 where it is -B. A refusal leaves the number
// that stood there.
#[unsafe(no_mangle)]
pub extern "C" fn farey_signed_query(
    v: usize,
    t: &[i64],
    a: &[i64; 4],
    b: &[i64; 4],
    w: &mut [u16],
    out: &mut [i16],
    start: usize,
    sign: &mut i64,
    place: &mut usize,
) -> u64
    ensures { Call (signed_query_call v t.now a.now b.now w out start sign)
        result place.new }
{
    engine::queries::farey_signed_query(v, t, a, b, w, out, start, sign, place)
}

// The lines of all pairs in p, four numbers each, from the front of lines, and their words in out, one behind another.
#[unsafe(no_mangle)]
pub extern "C" fn farey_sheet(
    v: usize,
    t: &[i64],
    p: &[i64],
    w: &mut [u16],
    lines: &mut [i64],
    out: &mut [i16],
    place: &mut usize,
) -> u64
    ensures { Call (sheet_call v t.now p.now w lines out) result place.new }
{
    engine::queries::farey_sheet(v, t, p, w, lines, out, place)
}
