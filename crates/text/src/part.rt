// Texts one after another in one text: where the first one ends.
ghost use Rattle.std.specs.Prelude.{◌≡◌, ◌≤◌, length, None};
ghost use Rattle.text.specs.Piece.{pieces, numbers, first_bad};
ghost use Rattle.text.specs.Part.{first_end, part_end};

use crate::{Format, next_number, place, survey_of, wanted_for};

// The same of a text of `count` pieces that are all numbers.
fn end_of_first(text: &[u8], format: Format, count: usize) -> usize
    requires { (first_bad (pieces text.now) ≡ None) × (length (pieces text.now) ≡ count) }
    ensures { result ≡ first_end format (numbers (pieces text.now)) (length text.now)
        (pieces text.now) }
{
    let Some(first) = next_number(text, 0) else {
        return text.len();
    };
    match wanted_for(format, first.value) {
        Some(k) if k < count => place(text, k),
        _ => text.len(),
    }
}

// Where the first text of the format ends, and the next one begins.
pub fn part_end(text: &[u8], format: Format) -> usize
    ensures { (result ≡ part_end format text.now) × (result ≤ length text.now) }
{
    match survey_of(text) {
        Err(_) => text.len(),
        Ok(count) => end_of_first(text, format, count),
    }
}
