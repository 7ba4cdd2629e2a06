// From permutations to a symbol: the rule of docs/CONVENTIONS.md in specs/Rule.antt and specs/Symbol.antt, the same by
// points in specs/Inner/Placed.antt, and what it gives in specs/Theorem.antt. The code that follows it is in the crate
// `import_symbol`; here is where Q leads.
#![tactic(auto)]

ghost use Rattle.std.specs.Prelude.{◌≡◌};
ghost use Rattle.permutations.specs.Pair.{image};
ghost use Rattle.import_rule.specs.Fixed.{by_q};

use permutations::image;

// Where Q leads from the point x: S, R twice, and S.
pub fn turned(s: &[u32], r: &[u32], x: usize) -> usize
    ensures { result ≡ by_q (image s.now) (image r.now) x }
{
    let a = image(s, x);
    let b = image(r, a);
    let c = image(r, b);
    image(s, c)
}
