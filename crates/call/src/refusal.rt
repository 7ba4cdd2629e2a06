// Refusals, each with its number and its place (specs/Refusal.antt): the error of every call.
//
// The list is here. The crate that raises a refusal names it, and the numbers that the exported calls return and that
// the programs write are made from it.

ghost use Rattle.std.specs.Prelude.{◌≡◌};
ghost use Rattle.call.specs.Refusal.{refusal_number, refusal_place};

// Why a call refuses, and where.
#[derive(Clone, Copy)]
pub enum Refusal {
    // ---- whoever writes the symbol
    // 1: v is out of range.
    BadVertexCount,
    // 2: The table's length isn't 3v + 1: the length.
    TableLength(usize),
    // 3: A vertex entry is out of range: its index.
    VertexEntry(usize),
    // 4: The neighbour rule is broken: the side.
    NotNeighbours(usize),
    // 5: There is no vertex 0/1.
    NoZero,
    // 6: A pairing isn't allowed, or a label isn't there twice: the first such side.
    BadPairing(usize),
    // 7: One vertex and no odd side.
    NoOddSide,

    // ---- whoever sends matrices
    // 8: An entry is beyond 1,000,000 in size: 0 to 3 in A, 4 to 7 in B.
    MatrixEntry(usize),
    // 9: A determinant isn't 1: 0 for A, 1 for B.
    BadDeterminant(usize),
    // 10: 'none': no word exists.
    NoWord,

    // ---- whoever lends space
    // 11: A space is too short: the length that is needed.
    TooShort(usize),

    // ---- whoever sends permutations
    // 12: The index is out of range, or the tables are unequal in length.
    PointCount,
    // 13: An entry is outside the table, or equal to an earlier one: its index.
    TableEntry(usize),
    // 14: S twice or R three times moves a point: the first such point.
    WrongOrder(usize),
    // 15: A point isn't reached from 0: the smallest.
    Unreached(usize),

    // ---- the group itself
    // 16: The rule needs a vertex entry over 1,000,000,000 in size: the side to be split.
    EntryTooLarge(usize),
    // 17: The level is at or over 2⁶⁴.
    LevelTooLarge,
    // 18: The genus formula gives no whole number from 0.
    NoGenus,

    // ---- whoever types
    // 19: The text isn't the numbers that are wanted: the offset.
    BadText(usize),

    // ---- whoever names a group
    // 20: N is out of range, or there is no such family.
    BadLevel,
    // 21: The index is over 3,066.
    LargeIndex,

    // ---- whoever asks for a drawing
    // 22: A vertex entry is over 33,554,432 in size: its index.
    TooLargeToDraw(usize),

    // ---- whoever exchanges partners
    // 23: A number is no side's free label, or a label is named again: which of the two numbers, 0 or 1.
    NotFreeLabel(usize),

    // ---- whoever compares groups
    // 24: The intersection has more than 3,066 points.
    LargeIntersection,
    // 25: A tower's entry names one that isn't listed before it: the entry.
    NotListedBefore(usize),
    // 26: A tower's claim is false: the entry that makes it.
    FalseClaim(usize),

    // ---- whoever writes cycles
    // 27: The text isn't of the form: the offset where the first piece begins that no ending could make right, or the
    // text's length.
    BadCycles(usize),

    // ---- whoever sends one matrix
    // 28: An entry is beyond 10¹⁸ in size: its index, 0 to 3.
    LargeEntry(usize),
}

impl Refusal {
    // Its number, from 1.
    pub fn number(self) -> u64
        ensures { result ≡ refusal_number self }
    {
        match self {
            Refusal::BadVertexCount => 1,
            Refusal::TableLength(_) => 2,
            Refusal::VertexEntry(_) => 3,
            Refusal::NotNeighbours(_) => 4,
            Refusal::NoZero => 5,
            Refusal::BadPairing(_) => 6,
            Refusal::NoOddSide => 7,
            Refusal::MatrixEntry(_) => 8,
            Refusal::BadDeterminant(_) => 9,
            Refusal::NoWord => 10,
            Refusal::TooShort(_) => 11,
            Refusal::PointCount => 12,
            Refusal::TableEntry(_) => 13,
            Refusal::WrongOrder(_) => 14,
            Refusal::Unreached(_) => 15,
            Refusal::EntryTooLarge(_) => 16,
            Refusal::LevelTooLarge => 17,
            Refusal::NoGenus => 18,
            Refusal::BadText(_) => 19,
            Refusal::BadLevel => 20,
            Refusal::LargeIndex => 21,
            Refusal::TooLargeToDraw(_) => 22,
            Refusal::NotFreeLabel(_) => 23,
            Refusal::LargeIntersection => 24,
            Refusal::NotListedBefore(_) => 25,
            Refusal::FalseClaim(_) => 26,
            Refusal::BadCycles(_) => 27,
            Refusal::LargeEntry(_) => 28,
        }
    }

    // Its place: 0 where there is none to tell.
    pub fn place(self) -> usize
        ensures { result ≡ refusal_place self }
    {
        match self {
            Refusal::BadVertexCount => 0,
            Refusal::TableLength(n) => n,
            Refusal::VertexEntry(n) => n,
            Refusal::NotNeighbours(n) => n,
            Refusal::NoZero => 0,
            Refusal::BadPairing(n) => n,
            Refusal::NoOddSide => 0,
            Refusal::MatrixEntry(n) => n,
            Refusal::BadDeterminant(n) => n,
            Refusal::NoWord => 0,
            Refusal::TooShort(n) => n,
            Refusal::PointCount => 0,
            Refusal::TableEntry(n) => n,
            Refusal::WrongOrder(n) => n,
            Refusal::Unreached(n) => n,
            Refusal::EntryTooLarge(n) => n,
            Refusal::LevelTooLarge => 0,
            Refusal::NoGenus => 0,
            Refusal::BadText(n) => n,
            Refusal::BadLevel => 0,
            Refusal::LargeIndex => 0,
            Refusal::TooLargeToDraw(n) => n,
            Refusal::NotFreeLabel(n) => n,
            Refusal::LargeIntersection => 0,
            Refusal::NotListedBefore(n) => n,
            Refusal::FalseClaim(n) => n,
            Refusal::BadCycles(n) => n,
            Refusal::LargeEntry(n) => n,
        }
    }
}
