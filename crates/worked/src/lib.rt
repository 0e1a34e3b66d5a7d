// Worked examples: what the definitions of crate `guard` give on given tables and requests, by computing. proofs/Morning is document
// 01's K1 to K14; proofs/DeepTies has senior and junior roles tied to the depth of three.
#![tactic(auto)]
