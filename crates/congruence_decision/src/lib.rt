#![tactic(auto)]

// Which subgroups are congruence subgroups, decided by finitely many equations between maps of the cosets. There is no
// code here: specs/ has the definitions and the theorem, proofs/ the proofs.
