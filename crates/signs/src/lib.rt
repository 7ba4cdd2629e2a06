#![tactic(auto)]

// The sign of the word that a pair query finds (request 2026-05), as mathematics: specs/Sign.antt and specs/Step.antt
// define it, specs/Theorem.antt says what it promises, and proofs/ has the proofs. There is no code here: the crates
// above compute by these definitions and cite the theorem.
