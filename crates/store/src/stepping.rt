// One step, by a raw line or one that has been read: turned into a request, tried by the rows of the table, and
// performed.
ghost use Rattle.std.specs.Prelude.{◌≡◌, Some, None};
ghost use Rattle.boosting.specs.Rows.{number_action, cue_call, on_cue_of, refusal_of, request, request_of};
ghost use Rattle.boosting.specs.Sound.{ActionKey, RequestKey};
ghost use Rattle.boosting.specs.Step.{perform, step_on, step_line};
ghost use Rattle.admission.specs.Answers.{admitted};
ghost use Rattle.store.specs.Answering.{foretold};

use crate::Store;
use admission::try_call;
use answers::Answer;
use cues::{Cue, CueNumbers};
use refusals::Refusal;
use step_words::{CueWord, NumberWord};
use steps::{Step, read_step};
use transactions::TransactionNumber;
use vocabulary::{Action, Call, Reply, Request, Standing};

// What a word asks for that has only the transaction's number behind it. No `From`, here and below: the types are of
// other crates.
fn number_action(word: NumberWord) -> Action
    ensures { result ≡ number_action word }
{
    match word {
        NumberWord::Begin => Action::Begin,
        NumberWord::Min => Action::OnObject(Some(Call::Min)),
        NumberWord::Take => Action::OnObject(Some(Call::Take)),
        NumberWord::Commit => Action::Commit,
        NumberWord::Undo => Action::Abort,
        NumberWord::Back => Action::RollBack,
    }
}

// The call of a word on the cue with this key.
fn cue_call(word: CueWord, key: u64) -> Call
    ensures { result ≡ cue_call word key }
{
    match word {
        CueWord::Add => Call::Add(key),
        CueWord::Remove => Call::Remove(key),
        CueWord::Has => Call::Has(key),
        CueWord::Push => Call::Push(key),
    }
}

// What a word asks of the cue of these numbers: no call where they are out of range.
fn cue_action(word: CueWord, numbers: CueNumbers) -> Action
    ensures { result ≡ on_cue_of numbers (cue_call word) }
{
    match Cue::try_from(numbers) {
        Ok(cue) => Action::OnObject(Some(cue_call(word, cue.key()))),
        Err(_) => Action::OnObject(None),
    }
}

// What a step asks of the store.
fn request_of(step: Step) -> Request
    ensures { Some result ≡ request_of (Some step) }
{
    match step {
        Step::WithNumber(word, transaction) => Request {
            transaction,
            action: number_action(word),
        },
        Step::WithCue(word, transaction, numbers) => Request {
            transaction,
            action: cue_action(word, numbers),
        },
    }
}

impl Store {
    // Whether the store would accept a request as it stands: what the object would answer its call, and `Ok` where it
    // is none; or the first row of the table that turns the request away. Nothing is changed. The rows 2 to 7 stand
    // here.
    #[inline(always)]
    #[tactic(auto, using(crate::proofs::Rows::row_rules))]
    pub fn admit(&self, request: Request) -> Result<Reply, Refusal>
        ensures { result ≡ admitted (refusal_of self.now (Some request)) (foretold request.action self.now.state) }
    {
        let e = TransactionNumber::try_from(request.transaction)?;
        match (self.standing(e), request.action) {
            (Standing::Closed, Action::Begin) => Ok(Reply::Ok),
            (_, Action::Begin) => Err(Refusal::AlreadyBegun),
            (Standing::Closed, _) => Err(Refusal::NotBegun),
            (Standing::Aborting, Action::RollBack) => Ok(Reply::Ok),
            (Standing::Aborting, _) => Err(Refusal::Aborting),
            (Standing::Open, Action::RollBack) => Err(Refusal::NotAborting),
            (Standing::Open, Action::OnObject(None)) => Err(Refusal::CueOutOfRange),
            (Standing::Open, Action::OnObject(Some(call))) => {
                try_call(&self.object, &self.transactions, e, call)
            }
            (Standing::Open, Action::Commit | Action::Abort) => Ok(Reply::Ok),
        }
    }

    // What an accepted request would be answered by the object; `Ok` where it is no call.
    fn foretell(&self, action: Action) -> Reply
        ensures { result ≡ foretold action self.now.state }
    {
        match action {
            Action::OnObject(Some(call)) => self.object.reply(call),
            _ => Reply::Ok,
        }
    }

    // An accepted request is done: it has to be one that no row turns away (`admit`), so nothing is refused.
    pub fn perform(&mut self, e: TransactionNumber, action: Action) -> Answer
        requires accepted { refusal_of self.old (request e action) ≡ None }
        requires is_key { ActionKey action }
        ensures store { self.new ≡ (perform self.old e action).store }
        ensures answer { result ≡ (perform self.old e action).answer }
    {
        let reply = self.foretell(action);
        self.perform_known(e, action, reply)
    }

    // An accepted request is done, whose reply is known. That a call's key is a cue's is asked here and in three more
    // functions, that the reply is the object's in two more: `Call` is the model's own type, which has no invariant,
    // and no type of call and reply could know the object as it stands.
    #[inline(always)]
    fn perform_known(&mut self, e: TransactionNumber, action: Action, reply: Reply) -> Answer
        requires accepted { refusal_of self.old (request e action) ≡ None }
        requires is_key { ActionKey action }
        requires known { reply ≡ foretold action self.old.state }
        ensures store { self.new ≡ (perform self.old e action).store }
        ensures answer { result ≡ (perform self.old e action).answer }
    {
        match action {
            Action::Begin => self.begin(e),
            Action::Commit => self.commit(e),
            Action::Abort => self.abort(e),
            Action::RollBack => self.roll_back(e),
            Action::OnObject(Some(call)) => self.accept(e, call, reply),
            // Row 7 has turned it away.
            Action::OnObject(None) => Answer::Refused(Refusal::CueOutOfRange),
        }
    }

    // One request: turned away with nothing changed, or accepted and done. A call's key has to be that of a cue: steps
    // make no other.
    #[inline(always)]
    #[tactic(auto, using(crate::proofs::Rows::request_rules))]
    pub fn try_request(&mut self, request: Request) -> Result<Answer, Refusal>
        requires { RequestKey (Some request) }
        ensures store { self.new ≡ (step_on self.old (Some request)).store }
        ensures answer { result ≡ admitted (refusal_of self.old (Some request)) (step_on self.old (Some request)).answer }
    {
        let reply = self.admit(request)?;
        let e = TransactionNumber::try_from(request.transaction)?;
        Ok(self.perform_known(e, request.action, reply))
    }

    // One step that has been read, or none where a line is no step: refused with nothing changed, or accepted and done.
    #[tactic(auto, using(crate::proofs::Rows::malformed), unfolding(boosting::specs::Step::step_on))]
    pub fn execute(&mut self, step: Option<Step>) -> Answer
        ensures store { self.new ≡ (step_on self.old (request_of step)).store }
        ensures answer { result ≡ (step_on self.old (request_of step)).answer }
    {
        let Some(step) = step else {
            return Answer::Refused(Refusal::Malformed);
        };
        self.try_request(request_of(step))
            .unwrap_or_else(Answer::Refused)
    }

    // One step on a line, without its LF.
    #[tactic(auto, unfolding(boosting::specs::Step::step_line))]
    pub fn step(&mut self, line: &[u8]) -> Answer
        ensures store { self.new ≡ (step_line self.old line.now).store }
        ensures answer { result ≡ (step_line self.old line.now).answer }
    {
        self.execute(read_step(line))
    }
}
