// Conflicts: the transaction that holds a lock in the way of another's, if there is one.
//
// The search is two loops, over the eight transactions and over the locks of one, for cue locks and the queue's modes
// alike. A labelled break leaves both at the first conflict and yields the transaction in the way: nothing is looked at
// before the search, and nothing after it.
#![tactic(auto)]

ghost use Rattle.std.specs.Prelude.{◌≡◌, ◌≤◌, IfSome};
ghost use Rattle.boosting.specs.Store.{blocker};

use transactions::Transaction;
use vocabulary::Lock;

// The lowest-numbered transaction, counted from 1, other than e that holds a lock in conflict with this one.
#[inline(always)]
#[tactic(auto, using(crate::proofs::Blockers::blocker_rules, crate::proofs::Searches::search_rules))]
pub fn find_blocker(transactions: &[Transaction; 8], e: usize, lock: Lock) -> Option<usize>
    ensures first { result ≡ blocker e lock 1 transactions.now }
    ensures in_range { IfSome result (λ f. f ≤ 8) }
{
    // A rule of the project fixes this form: nested loops, left by a labelled break with the one in the way. Whether a
    // lock is e's own is asked last: asked first, the input that mostly waits takes 4 % longer. The own place is by
    // `wrapping_sub`: for e = 0 it is none of the eight, and `i + 1 != e` costs that input 4 % too.
    let own = e.wrapping_sub(1);
    let blocker = 'search: {
        for (i, transaction) in transactions.iter().enumerate() {
            let locks = transaction.locks();
            match lock {
                Lock::Cue(key) => {
                    // The sieve rules most transactions out at a glance.
                    if locks.may_hold(key) {
                        for held in locks.cues() {
                            if *held == key && i != own {
                                break 'search Some(i + 1);
                            }
                        }
                    }
                }
                Lock::Push | Lock::Look | Lock::Take => {
                    if locks.conflicts(lock) && i != own {
                        break 'search Some(i + 1);
                    }
                }
            }
        }
        None
    };
    blocker
}
