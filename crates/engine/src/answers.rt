// What an exported function says of the answer of its call (specs/Exported.antt).
ghost use Rattle.std.specs.Prelude.{◌≡◌};
ghost use Rattle.call.specs.Refusal.{answer_number, answer_place, refusal_number, refusal_place};
ghost use Rattle.word.specs.Answer.{query_place};
ghost use Rattle.call.specs.Inner.Fills.{decision_place};
ghost use Rattle.coset.specs.Answer.{figure_value, figure_numbers};
ghost use Rattle.engine.specs.Exported.{filled_place, sign_written};

use call::refusal::Refusal;
use figures::FigureRecord;
use word::{FoundWord, sign_number};

// A refusal's number and place, or 0 and a count.
#[derive(Clone, Copy)]
pub(crate) struct Said {
    pub number: u64,
    pub place: usize,
}

// A figure: 0 and its value, or its refusal's number and 0.
#[derive(Clone, Copy)]
pub(crate) struct Told {
    pub number: u64,
    pub value: u64,
}

// A refusal.
pub(crate) fn refused(refusal: Refusal) -> Said
    ensures { (result.number ≡ refusal_number refusal) × (result.place ≡ refusal_place refusal) }
{
    Said {
        number: refusal.number(),
        place: refusal.place(),
    }
}

// No refusal, and a count.
pub(crate) fn counted(count: usize) -> Said
    ensures { (result.number ≡ 0) × (result.place ≡ count) }
{
    Said {
        number: 0,
        place: count,
    }
}

// Of calls that only check.
pub(crate) fn of_checked(answer: Result<(), Refusal>) -> Said
    ensures { (result.number ≡ answer_number answer) × (result.place ≡ answer_place answer) }
{
    match answer {
        Ok(()) => counted(0),
        Err(refusal) => refused(refusal),
    }
}

// Of generators, tables, widths and imports.
pub(crate) fn of_filled(answer: Result<usize, Refusal>) -> Said
    ensures { (result.number ≡ answer_number answer) × (result.place ≡ filled_place answer) }
{
    match answer {
        Ok(k) => counted(k),
        Err(refusal) => refused(refusal),
    }
}

pub(crate) fn of_query(answer: Result<FoundWord, Refusal>) -> Said
    ensures { (result.number ≡ answer_number answer) × (result.place ≡ query_place answer) }
{
    match answer {
        Ok(FoundWord { letters: k, .. }) => counted(k),
        Err(refusal) => refused(refusal),
    }
}

// The sign of a word as a number, or the number that stood there.
pub(crate) fn sign_written(answer: Result<FoundWord, Refusal>, before: i64) -> i64
    ensures { result ≡ sign_written answer before }
{
    match answer {
        Ok(FoundWord { plus: sign, .. }) => sign_number(sign),
        Err(_) => before,
    }
}

// Of a call that decides: 1 for yes, 0 for no.
pub(crate) fn of_decision(answer: Result<bool, Refusal>) -> Said
    ensures { (result.number ≡ answer_number answer) × (result.place ≡ decision_place answer) }
{
    match answer {
        Ok(true) => counted(1),
        Ok(false) => counted(0),
        Err(refusal) => refused(refusal),
    }
}

pub(crate) fn of_figure(answer: Result<u64, Refusal>) -> Told
    ensures { (result.number ≡ answer_number answer) × (result.value ≡ figure_value answer) }
{
    match answer {
        Ok(x) => Told {
            number: 0,
            value: x,
        },
        Err(why) => Told {
            number: why.number(),
            value: 0,
        },
    }
}

// All figures: index, e2, e3, cusps, then number and value of the genus, then of the level.
pub(crate) fn of_figures(f: FigureRecord) -> [u64; 8]
    ensures { result ≡ figure_numbers f }
{
    let g = f.genus;
    let l = f.level;
    let genus = of_figure(g);
    let level = of_figure(l);
    [
        f.index as u64,
        f.e2 as u64,
        f.e3 as u64,
        f.cusps as u64,
        genus.number,
        genus.value,
        level.number,
        level.value,
    ]
}
