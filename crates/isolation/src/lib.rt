// Theorems over the definitions of crate `guard`, and nothing else. The isolation rule (noninterference between integrity levels):
// proofs/Theorem states it, proofs/Teeth shows what it shuts out. Taking over tables of the old width: specs/OldWidth.
#![tactic(auto)]
