// The coset tables of a symbol, its cusps and its figures.
ghost use Rattle.call.specs.Call.{Call};
ghost use Rattle.coset.specs.Answer.{tables_call, widths_call, figures_call};
ghost use Rattle.cusp_record.specs.Answer.{cusps_call};

use crate::answers::{of_figures, of_filled};

// The tables of S, R and T, each from the front of its space.
#[unsafe(no_mangle)]
pub extern "C" fn farey_tables(
    v: usize,
    t: &[i64],
    w: &mut [u16],
    s: &mut [u32],
    r: &mut [u32],
    u: &mut [u32],
    place: &mut usize,
) -> u64
    ensures { Call (tables_call v t.now w s r u) result place.new }
{
    let said = of_filled(coset::tables(v, t, w, s, r, u));
    *place = said.place;
    said.number
}

// The widths of the cusps, from the front of out.
#[unsafe(no_mangle)]
pub extern "C" fn farey_widths(
    v: usize,
    t: &[i64],
    w: &mut [u16],
    out: &mut [u32],
    place: &mut usize,
) -> u64
    ensures { Call (widths_call v t.now w out) result place.new }
{
    let said = of_filled(coset::widths(v, t, w, out));
    *place = said.place;
    said.number
}

// The cusp of each coset and its steps of T from the cusp's smallest point, each from the front of its space.
#[unsafe(no_mangle)]
pub extern "C" fn farey_cusps(
    v: usize,
    t: &[i64],
    w: &mut [u16],
    cusps: &mut [u32],
    steps: &mut [u32],
    place: &mut usize,
) -> u64
    ensures { Call (cusps_call v t.now w cusps steps) result place.new }
{
    let said = of_filled(cusp_record::cusps(v, t, w, cusps, steps));
    *place = said.place;
    said.number
}

// The figures: index, e2, e3, cusps, then number and value of the genus, then of the level. The number of the genus is
// always 0: the genus of a symbol is never refused.
#[unsafe(no_mangle)]
pub extern "C" fn farey_figures(
    v: usize,
    t: &[i64],
    w: &mut [u16],
    out: &mut [u64; 8],
    place: &mut usize,
) -> u64
    ensures { Call (figures_call v t.now w out) result place.new }
{
    let answer = coset::figures(v, t, w);
    match answer {
        Err(refusal) => {
            *place = refusal.place();
            refusal.number()
        }
        Ok(f) => {
            *place = 0;
            *out = of_figures(f);
            0
        }
    }
}
