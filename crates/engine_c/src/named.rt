// Congruence groups by name. The family is a number, since C hands in no enum of ours.
ghost use Rattle.call.specs.Call.{Call};
ghost use Rattle.import_rule.specs.Order.{leftmost, longest_open};
ghost use Rattle.import_symbol.specs.Answer.{order_by};
ghost use Rattle.named_groups.specs.Answer.{named_tables_call, named_symbol_call};
ghost use Rattle.named_groups.specs.Claim.{named_query_call, named_signed_query_call};

// The tables of S and R of a congruence group by its family's number and N, each from the front of its space.
#[unsafe(no_mangle)]
pub extern "C" fn farey_named_tables(
    family: u64,
    n: u64,
    w: &mut [u16],
    s: &mut [u32],
    r: &mut [u32],
    place: &mut usize,
) -> u64
    ensures { Call (named_tables_call family n w s r) result place.new }
{
    engine::named::farey_named_tables(family, n, w, s, r, place)
}

// The symbol of a congruence group by the rule, from the front of out.
#[unsafe(no_mangle)]
pub extern "C" fn farey_named_symbol(
    family: u64,
    n: u64,
    w: &mut [u16],
    out: &mut [i64],
    place: &mut usize,
) -> u64
    ensures { Call (named_symbol_call leftmost family n w out) result place.new }
{
    engine::named::farey_named_symbol(family, n, w, out, place)
}

// The same by the wide rule.
#[unsafe(no_mangle)]
pub extern "C" fn farey_named_symbol_wide(
    family: u64,
    n: u64,
    w: &mut [u16],
    out: &mut [i64],
    place: &mut usize,
) -> u64
    ensures { Call (named_symbol_call longest_open family n w out) result place.new }
{
    engine::named::farey_named_symbol_wide(family, n, w, out, place)
}

// A word in the generators of the group's symbol by the rule that takes A to B up to sign, or 10: B A⁻¹ is not in the
// group.
#[unsafe(no_mangle)]
pub extern "C" fn farey_named_query(
    family: u64,
    n: u64,
    a: &[i64; 4],
    b: &[i64; 4],
    w: &mut [u16],
    out: &mut [i16],
    start: usize,
    place: &mut usize,
) -> u64
    ensures { Call (named_query_call leftmost family n a.now b.now w out start)
        result place.new }
{
    engine::named::farey_named_query(family, n, a, b, w, out, start, place)
}

// The same, with the sign of the word; a refusal leaves the number that stood there.
#[unsafe(no_mangle)]
pub extern "C" fn farey_named_signed_query(
    family: u64,
    n: u64,
    a: &[i64; 4],
    b: &[i64; 4],
    w: &mut [u16],
    out: &mut [i16],
    start: usize,
    sign: &mut i64,
    place: &mut usize,
) -> u64
    ensures { Call (named_signed_query_call leftmost family n a.now b.now w out start sign)
        result place.new }
{
    engine::named::farey_named_signed_query(family, n, a, b, w, out, start, sign, place)
}

// The same on the symbol by the wide rule.
#[unsafe(no_mangle)]
pub extern "C" fn farey_named_query_wide(
    family: u64,
    n: u64,
    a: &[i64; 4],
    b: &[i64; 4],
    w: &mut [u16],
    out: &mut [i16],
    start: usize,
    place: &mut usize,
) -> u64
    ensures { Call (named_query_call longest_open family n a.now b.now w out start)
        result place.new }
{
    engine::named::farey_named_query_wide(family, n, a, b, w, out, start, place)
}

// The same on the symbol by the wide rule, with the sign of the word; a refusal leaves the number that stood there.
#[unsafe(no_mangle)]
pub extern "C" fn farey_named_signed_query_wide(
    family: u64,
    n: u64,
    a: &[i64; 4],
    b: &[i64; 4],
    w: &mut [u16],
    out: &mut [i16],
    start: usize,
    sign: &mut i64,
    place: &mut usize,
) -> u64
    ensures { Call (named_signed_query_call longest_open family n a.now b.now w out start sign)
        result place.new }
{
    engine::named::farey_named_signed_query_wide(family, n, a, b, w, out, start, sign, place)
}
