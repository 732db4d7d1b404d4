// The store: one script, one queue and eight transactions, opened from a script text, stepped by raw lines or by steps
// that have been read, recovered, and written out.
//
// Clauses see the model's store. What opening and stepping keep of it (`Sound`: order, ranges and room) is the type's
// invariant, so no public function asks for it. `try_request` and `perform` ask that a call's key is a cue's,
// `perform` that no row turns the request away, and `roll_back` that the transaction is aborting; the others ask for
// nothing. Each changes the store where it stands: it has 7 kB.
#![tactic(auto)]

ghost use Rattle.std.specs.Prelude.{◌≡◌, [], replicate};
ghost use Rattle.boosting.specs.Store.{closed_transaction, opened};
ghost use Rattle.boosting.specs.Sound.{Sound};

mod opening;
mod performing;
mod recovery;
mod stepping;
mod texts;

// Words in any order, which are no store's, are counted and written by these.
pub use script_texts::{cues_length, write_cues};
use shared_object::SharedObject;
use std::array;
use std::marker::Model;
use transactions::Transaction;

#[derive(Clone, Drop)]
pub struct Store {
    object: SharedObject,
    transactions: [Transaction; 8],
}

impl Model for Store {
    ghost use Rattle.boosting.specs.Store.{Store as ModelStore};
    ghost use Rattle.boosting.specs.Sound.{Sound};

    ghost Value = { ModelStore };

    ghost view = { λ d. record { state = d.object; transactions = d.transactions } };

    ghost invariant = { λ d. Sound (record { state = d.object; transactions = d.transactions }) };
}

// Eight closed transactions.
fn all_closed() -> [Transaction; 8]
    ensures { result ≡ replicate 8 closed_transaction }
{
    array::from_fn(|_| Transaction::new())
}

impl Store {
    // The store of the empty script.
    #[tactic(auto, unfolding(boosting::specs::Store::opened))]
    pub fn new() -> Self
        ensures { result ≡ opened [] }
    {
        Store {
            object: SharedObject::new(),
            transactions: all_closed(),
        }
    }

    // The store as it stands, once more. `clone` answers a `Result`, as each clone does; here that is always `Ok`.
    pub fn copy(&self) -> Self
        ensures { result ≡ self.now }
    {
        self.clone().unwrap()
    }

    // The script and the queue.
    pub fn object(&self) -> &SharedObject
        ensures value { result.now ≡ self.now.state }
        ensures sound { Sound self.now }
    {
        &self.object
    }

    // The eight transactions, in the order of their numbers.
    pub fn transactions(&self) -> &[Transaction; 8]
        ensures value { result.now ≡ self.now.transactions }
        ensures sound { Sound self.now }
    {
        &self.transactions
    }
}
