// What an accepted step does to the store, where it stands, and what it is answered; and how a transaction stands.
ghost use Rattle.std.specs.Prelude.{◌≡◌, true, Some, None};
ghost use Rattle.boosting.specs.Object.{reply as reply_of};
ghost use Rattle.boosting.specs.Store.{transaction, valid, aborting};
ghost use Rattle.boosting.specs.Rows.{begin, commit, abort, roll_back, call as on_object, refusal_of, request};
ghost use Rattle.boosting.specs.Sound.{CallKey};
ghost use Rattle.boosting.specs.Step.{perform};

use crate::Store;
use answers::Answer;
use shared_object::{answer_of, entry_of, lock_of};
use transactions::TransactionNumber;
use vocabulary::{Call, Reply, Standing};

#[tactic(auto, unfolding(boosting::specs::Step::perform))]
impl Store {
    // How transaction e stands.
    #[inline(always)]
    #[tactic(auto, using(crate::proofs::Performed::standing_rules))]
    pub(crate) fn standing(&self, e: TransactionNumber) -> Standing
        ensures value { result ≡ (transaction self.now e).standing }
        ensures in_range { valid e ≡ true }
    {
        self.transactions[e.index()].standing()
    }

    // Transaction e opens. This and the next two differ in one call: one function over a closure would be no shorter.
    pub(crate) fn begin(&mut self, e: TransactionNumber) -> Answer
        ensures store { self.new ≡ (perform self.old e begin).store }
        ensures answer { result ≡ (perform self.old e begin).answer }
    {
        self.transactions[e.index()].begin();
        Answer::Ok
    }

    // Transaction e closes.
    pub(crate) fn commit(&mut self, e: TransactionNumber) -> Answer
        ensures store { self.new ≡ (perform self.old e commit).store }
        ensures answer { result ≡ (perform self.old e commit).answer }
    {
        self.transactions[e.index()].close();
        Answer::Ok
    }

    // Transaction e only rolls back from here on.
    #[tactic(auto, using(crate::proofs::Performed::aborts), unfolding(boosting::specs::Step::perform))]
    pub(crate) fn abort(&mut self, e: TransactionNumber) -> Answer
        ensures store { self.new ≡ (perform self.old e abort).store }
        ensures answer { result ≡ (perform self.old e abort).answer }
    {
        self.transactions[e.index()].abort();
        Answer::Ok
    }

    // The newest entry of an aborting transaction is taken back, and with none left it closes: how many are left.
    #[tactic(auto, using(crate::proofs::Performed::rolled_rules), unfolding(boosting::specs::Step::perform))]
    pub fn roll_back(&mut self, e: TransactionNumber) -> Answer
        requires { (transaction self.old e).standing ≡ aborting }
        ensures store { self.new ≡ (perform self.old e roll_back).store }
        ensures answer { result ≡ (perform self.old e roll_back).answer }
    {
        let Some(entry) = self.transactions[e.index()].take_newest() else {
            return Answer::Left(0);
        };
        self.object.undo(entry);
        Answer::Left(self.transactions[e.index()].log().len())
    }

    // An accepted call with its reply: the plain operation is run, its lock held and its entry noted.
    #[inline(always)]
    pub(crate) fn accept(&mut self, e: TransactionNumber, call: Call, reply: Reply) -> Answer
        requires accepted { refusal_of self.old (request e (on_object (Some call))) ≡ None }
        requires is_key { CallKey call }
        requires known { reply ≡ reply_of call self.old.state }
        ensures store { self.new ≡ (perform self.old e (on_object (Some call))).store }
        ensures answer { result ≡ (perform self.old e (on_object (Some call))).answer }
    {
        self.object.apply_known(call, reply);
        self.transactions[e.index()].accept(lock_of(call), entry_of(call, reply));
        answer_of(reply)
    }
}
