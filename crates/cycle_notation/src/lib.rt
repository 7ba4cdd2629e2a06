#![tactic(auto)]

// Permutation pairs in cycle notation (request 2026-14), as mathematics: specs/Piece.antt and specs/Form.antt say which
// texts are of the form, specs/Place.antt where a text leaves it. There is no code here: proofs/ shows that a reader
// with a few states finds exactly that.
