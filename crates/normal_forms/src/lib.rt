#![tactic(auto)]

// Normal forms of the elements of H (request 2026-12), as mathematics: specs/Reduced.antt says which words are reduced,
// specs/Reduce.antt how a word is reduced letter by letter, specs/Theorem.antt what is promised, and proofs/ has the
// proofs. There is no code here: the crate `word` cites the theorem.
