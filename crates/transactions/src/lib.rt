// A transaction: how it stands, the locks that it holds and its undo log.
//
// Clauses see it as the model's `Transaction`, and each method does to it what the model does: it opens, aborts,
// closes, takes in an accepted call, and gives its newest entry back to be undone.
#![tactic(auto)]

ghost use Rattle.std.specs.Prelude.{◌≡◌, false};
ghost use Rattle.boosting.specs.Room.{locks_full, log_full};
ghost use Rattle.boosting.specs.Store.{aborting, closed_transaction, open_transaction};
ghost use Rattle.boosting.specs.Step.{aborted};
ghost use Rattle.undo_logs.specs.Log.{newest};
ghost use Rattle.transactions.specs.Steps.{accepted, unwound_once};

mod number;

use held_locks::HeldLocks;
pub use number::TransactionNumber;
use std::marker::Model;
use undo_logs::UndoLog;
use vocabulary::{Entry, Lock, Standing};

// A closed one has no lock and no entry. An enum with both in its arms would be taken apart wherever one of the three
// is asked, and its closed arm would have to make them for those who ask.
#[derive(Clone, Drop)]
pub struct Transaction {
    standing: Standing,
    locks: HeldLocks,
    log: UndoLog,
}

impl Model for Transaction {
    ghost use Rattle.boosting.specs.Store.{Transaction as ModelTransaction};

    ghost Value = { ModelTransaction };

    ghost view = { λ t. record { standing = t.standing; locks = t.locks; log = t.log } };
}

#[tactic(auto, unfolding(boosting::specs::Store::closed_transaction, boosting::specs::Store::open_transaction))]
impl Transaction {
    // A closed transaction.
    pub fn new() -> Self
        ensures { result ≡ closed_transaction }
    {
        Transaction {
            standing: Standing::Closed,
            locks: HeldLocks::new(),
            log: UndoLog::new(),
        }
    }

    #[inline(always)]
    pub fn standing(&self) -> Standing
        ensures { result ≡ self.now.standing }
    {
        self.standing
    }

    #[inline(always)]
    pub fn locks(&self) -> &HeldLocks
        ensures { result.now ≡ self.now.locks }
    {
        &self.locks
    }

    #[inline(always)]
    pub fn log(&self) -> &UndoLog
        ensures { result.now ≡ self.now.log }
    {
        &self.log
    }

    // It opens, with no lock and no entry.
    pub fn begin(&mut self)
        ensures { self.new ≡ open_transaction }
    {
        self.close();
        self.standing = Standing::Open;
    }

    // It closes: its locks are free and its log is empty.
    pub fn close(&mut self)
        ensures { self.new ≡ closed_transaction }
    {
        self.locks.clear();
        self.log.clear();
        self.standing = Standing::Closed;
    }

    // It is aborting from now on: it keeps its locks and its log.
    pub fn abort(&mut self)
        ensures { self.new ≡ aborted self.old }
    {
        self.standing = Standing::Aborting;
    }

    // It holds the lock of an accepted call, and notes its entry. There has to be room for both.
    #[inline(always)]
    pub fn accept(&mut self, lock: Lock, entry: Option<Entry>)
        requires lock_room { locks_full lock self.old.locks ≡ false }
        requires log_room { log_full entry self.old.log ≡ false }
        ensures { self.new ≡ accepted lock entry self.old }
    {
        self.locks.hold(lock);
        if let Some(entry) = entry {
            self.log.note(entry);
        }
    }

    // Its newest entry, if there is one, is to be undone: the log loses it, and with no entry left it closes.
    #[tactic(auto, using(crate::proofs::Unwinding::unwound_some))]
    pub fn take_newest(&mut self) -> Option<Entry>
        requires { self.old.standing ≡ aborting }
        ensures newest { result ≡ newest self.old.log }
        ensures rest { self.new ≡ unwound_once self.old }
    {
        let newest = self.log.take_newest();
        if self.log.len() == 0 {
            self.close();
        }
        newest
    }
}
