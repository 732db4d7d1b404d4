// Sorted lists of keys: order, rank, membership, insertion and deletion. No code, only definitions and their laws.
//
// A script is such a list with no key twice, a queue one in which keys may repeat. `sorted_keys` holds them in fixed
// memory, and the model of the desk (`boosting`) computes on them.
#![tactic(auto)]
