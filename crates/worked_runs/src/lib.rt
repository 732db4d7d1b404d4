// The worked steps of the rules: no code, only theorems about the model of the desk (`boosting`).
//
// `specs/` has the lines with their answers; `proofs/` computes them. They are a crate by themselves because computing
// them takes longest, and an edit of the model should not wait for it.
#![tactic(auto)]
