// The checks, the generators and the sides of a symbol.
ghost use Rattle.call.specs.Call.{Call};
ghost use Rattle.pairing.specs.Generator.{generators_call};
ghost use Rattle.drawing.specs.Answer.{drawing_call};
ghost use Rattle.engine.specs.Exported.{check_call};

use crate::answers::{of_checked, of_filled};

// The checks of a symbol: refusals 1 to 7.
#[unsafe(no_mangle)]
pub extern "C" fn farey_check(v: usize, t: &[i64], place: &mut usize) -> u64
    ensures { Call (check_call v t.now) result place.new }
{
    let said = of_checked(symbol::check(v, t));
    *place = said.place;
    said.number
}

// The generators, five numbers each, from the front of out.
#[unsafe(no_mangle)]
pub extern "C" fn farey_generators(
    v: usize,
    t: &[i64],
    w: &mut [u16],
    out: &mut [i64],
    place: &mut usize,
) -> u64
    ensures { Call (generators_call v t.now w out) result place.new }
{
    let said = of_filled(pairing::generator::generators(v, t, w, out));
    *place = said.place;
    said.number
}

// The sides for a drawing, four floats each, from the front of out, and the box that holds them: left, right, bottom,
// top.
#[unsafe(no_mangle)]
pub extern "C" fn farey_drawing(
    v: usize,
    t: &[i64],
    out: &mut [f64],
    bounds: &mut [f64; 4],
    place: &mut usize,
) -> u64
    ensures { Call (drawing_call v t.now out bounds) result place.new }
{
    let answer = drawing::draw_symbol(v, t, out);
    match answer {
        Err(refusal) => {
            *place = refusal.place();
            refusal.number()
        }
        Ok(b) => {
            *place = v + 1;
            *bounds = [b.left, b.right, b.bottom, b.top];
            0
        }
    }
}
