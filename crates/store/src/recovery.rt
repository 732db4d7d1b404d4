// Recovery: every unclosed transaction is undone, newest entry first, and closed, in rising numbers.
ghost use Rattle.std.specs.Prelude.{◌≡◌};
ghost use Rattle.boosting.specs.Rows.{request, abort, roll_back};
ghost use Rattle.boosting.specs.Step.{step_on};
ghost use Rattle.boosting.specs.Recovery.{roll_backs, recover_one, recover, rising};

use crate::Store;
use transactions::TransactionNumber;
use vocabulary::Standing;

impl Store {
    // An open transaction is aborting from now on; any other refuses, and nothing changes. This and `step_back` differ
    // in the standing and in the call: one function over both would be no shorter.
    #[tactic(auto, using(crate::proofs::Rows::standing_rules))]
    fn abort_open(&mut self, e: TransactionNumber)
        ensures { self.new ≡ (step_on self.old (request e abort)).store }
    {
        if let Standing::Open = self.standing(e) {
            self.abort(e);
        }
    }

    // One entry of an aborting transaction is undone; any other refuses, and nothing changes.
    #[tactic(auto, using(crate::proofs::Rows::standing_rules))]
    fn step_back(&mut self, e: TransactionNumber)
        ensures { self.new ≡ (step_on self.old (request e roll_back)).store }
    {
        if let Standing::Aborting = self.standing(e) {
            self.roll_back(e);
        }
    }

    // So many rollback steps.
    #[tactic(auto, using(crate::proofs::Recovering::steps_rules))]
    fn roll_backs(&mut self, e: TransactionNumber, steps: usize)
        ensures { self.new ≡ roll_backs steps self.old e }
    {
        for _step in 0..steps {
            self.step_back(e);
        }
    }

    // Transaction e is undone and closed, if it is not.
    fn recover_one(&mut self, e: TransactionNumber)
        ensures { self.new ≡ recover_one self.old e }
    {
        let entries = self.transactions[e.index()].log().len();
        self.abort_open(e);
        self.roll_backs(e, entries + 1);
    }

    // Every unclosed transaction is undone and closed.
    #[tactic(auto, using(crate::proofs::Recovering::next), unfolding(boosting::specs::Recovery::recover))]
    pub fn recover(&mut self)
        ensures { self.new ≡ recover self.old rising }
    {
        for e in TransactionNumber::all() {
            self.recover_one(e);
        }
    }
}
