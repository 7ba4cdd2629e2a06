// The exported calls that exchange the partners of two labels.
ghost use Rattle.call.specs.Call.{Call};
ghost use Rattle.partner_exchange.specs.Answer.{exchange_call, preview_call};

use crate::answers::{of_figures, of_filled};

// The symbol with the second sides of the labels x and y exchanged, from the front of out.
#[unsafe(no_mangle)]
pub extern "C" fn farey_exchange(
    v: usize,
    t: &[i64],
    x: i64,
    y: i64,
    out: &mut [i64],
    place: &mut usize,
) -> u64
    ensures { Call (exchange_call v t.now x y out) result place.new }
{
    let said = of_filled(partner_exchange::exchange(v, t, x, y, out));
    *place = said.place;
    said.number
}

// The figures of the symbol that `farey_exchange` would make, and the widths of its cusps from the front of widths.
#[unsafe(no_mangle)]
pub extern "C" fn farey_preview(
    v: usize,
    t: &[i64],
    x: i64,
    y: i64,
    w: &mut [u16],
    widths: &mut [u32],
    out: &mut [u64; 8],
    place: &mut usize,
) -> u64
    ensures { Call (preview_call v t.now x y w widths out) result place.new }
{
    let answer = partner_exchange::preview(v, t, x, y, w, widths);
    match answer {
        Err(refusal) => {
            *place = refusal.place();
            refusal.number()
        }
        Ok(f) => {
            *place = f.cusps;
            *out = of_figures(f);
            0
        }
    }
}
