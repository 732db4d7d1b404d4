// The model of the desk: no code, only definitions and theorems.
//
// `specs/` says what the desk means, in the order of the rules (docs/RULES.md), in definitions that compute; the three
// terms of acceptance are theorems about it, over raw lines of bytes. The code of the crates above only has to equal
// this model. The method is transactional boosting: abstract locks, a log of inverses, undo in reverse.
#![tactic(auto)]
