// What a piece does to a permutation: points get their marks and are linked into their cycles.
ghost use Rattle.std.specs.Prelude.{◌≡◌, ◌≤◌};
ghost use Rattle.cycle_reading.specs.Inner.Hand.{piece_of, PartFits, hand, step_hand, can_name, named_or, Stepped};

use super::phases::{Phase, Stop};
use super::{Piece, Table};

// Which points were named.
pub(crate) type Marks = [bool; 3066];

// The first and the last point of a cycle under way. Points count from 0 here.
#[derive(Clone, Copy)]
pub(crate) struct Cycle {
    pub(crate) first: usize,
    pub(crate) last: usize,
}

// What is known of a permutation: its phase; how many points were named; the cycle that is under way.
#[derive(Clone, Copy)]
pub(crate) struct Part {
    pub(crate) phase: Phase,
    pub(crate) used: usize,
    pub(crate) cycle: Option<Cycle>,
}

// Whether x may be named next: a point may come here, x is one, it has no mark, and there is room.
pub(crate) fn can_name(n: usize, x: usize, part: Part, marks: &Marks) -> bool
    requires { n ≤ 3066 }
    ensures { result ≡ can_name n x part marks.now }
{
    part.phase.takes_point() && 1 <= x && x <= n && !marks[x - 1] && part.used < n
}

// The number x as a point: it gets its mark and is linked into its cycle. The point before leads to it, and it to the
// first point.
pub(crate) fn name_point(
    n: usize,
    x: usize,
    part: Part,
    marks: &mut Marks,
    table: &mut Table,
) -> Result<Part, Stop>
    requires { PartFits part × (n ≤ 3066) }
    ensures { Stepped (hand part marks.old table.old) (named_or n x (hand part marks.old table.old)) result marks.new
        table.new }
{
    if !can_name(n, x, part, marks) {
        return Err(Stop::Lost);
    }
    let i = x - 1;
    let cycle = part.cycle.unwrap_or(Cycle { first: i, last: i });
    marks[i] = true;
    // `as`: points are below 3,066.
    table[cycle.last] = i as u32;
    table[i] = cycle.first as u32;
    Ok(Part {
        phase: Phase::Point,
        used: part.used + 1,
        cycle: Some(Cycle {
            first: cycle.first,
            last: i,
        }),
    })
}

// What a piece does to a permutation.
pub(crate) fn take_piece(
    semi: bool,
    n: usize,
    piece: Piece,
    part: Part,
    marks: &mut Marks,
    table: &mut Table,
) -> Result<Part, Stop>
    requires { PartFits part × (n ≤ 3066) }
    ensures { Stepped (hand part marks.old table.old)
        (step_hand semi n (hand part marks.old table.old) (piece_of piece)) result marks.new table.new }
{
    let room = part.used < n;
    let phase = part.phase;
    match piece {
        Piece::Number(x) => name_point(n, x, part, marks, table),
        Piece::Blank => Ok(Part {
            phase: phase.behind_blank()?,
            ..part
        }),
        Piece::Opening => Ok(Part {
            phase: phase.behind_opening(semi, room)?,
            ..part
        }),
        Piece::Closing => Ok(Part {
            phase: phase.behind_closing()?,
            cycle: None,
            ..part
        }),
        Piece::Comma => Ok(Part {
            phase: phase.behind_comma(room)?,
            ..part
        }),
        Piece::Semicolon => Err(phase.at_semicolon(semi)),
        Piece::Another => Err(Stop::Lost),
    }
}
