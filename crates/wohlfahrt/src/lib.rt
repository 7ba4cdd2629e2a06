#![tactic(auto)]

// Congruence subgroups, and Wohlfahrt's theorem: a congruence subgroup contains Γ(N), N the least common multiple of
// its cusp widths. There is no code here: specs/ has the definitions and the theorems, proofs/ the proofs.
