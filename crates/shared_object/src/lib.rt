// The shared object: the script and the queue, with the six calls on them and what takes a call back.
//
// Clauses see the model's state. Room is asked for where a key comes in, as the model's rows have found it: it is that
// of what comes, which no type can know. The order and the capacities are in the type of the collections. What a call
// locks, notes and answers is here too.
#![tactic(auto)]

ghost use Rattle.std.specs.Prelude.{◌≡◌, ◌≤◌, [], length};
ghost use Rattle.tables.specs.Table.{Ordered};
ghost use Rattle.boosting.specs.Object.{effect, reply as reply_of, answer_of};
ghost use Rattle.boosting.specs.Undo.{entry_of, inverse};
ghost use Rattle.boosting.specs.Locks.{lock_of};
ghost use Rattle.boosting.specs.Store.{started};
ghost use Rattle.shared_object.specs.Room.{HasRoom};

use answers::Answer;
use cues::Cue;
use sorted_keys::SortedKeys;
use std::marker::Model;
use vocabulary::{Call, Entry, Lock, Reply};

// The lock that a call takes. No `From`, here and below: the definition that the clause cites is the model's, and the
// model stands on the types of both.
#[tactic(auto, unfolding(boosting::specs::Locks::lock_of))]
pub fn lock_of(call: Call) -> Lock
    ensures { result ≡ lock_of call }
{
    match call {
        Call::Add(key) | Call::Remove(key) | Call::Has(key) => Lock::Cue(key),
        Call::Push(_) => Lock::Push,
        Call::Min => Lock::Look,
        Call::Take => Lock::Take,
    }
}

// The entry that a call with this reply notes, if it changed something.
#[tactic(auto, unfolding(boosting::specs::Undo::entry_of))]
pub fn entry_of(call: Call, reply: Reply) -> Option<Entry>
    ensures { result ≡ entry_of call reply }
{
    match (call, reply) {
        (Call::Add(key), Reply::Yes) => Some(Entry::Added(key)),
        (Call::Remove(key), Reply::Yes) => Some(Entry::Removed(key)),
        (Call::Push(key), _) => Some(Entry::Pushed(key)),
        (Call::Take, Reply::Cue(key)) => Some(Entry::Taken(key)),
        _ => None,
    }
}

// What a reply is on an answer line. No `From`: both types are of other crates.
pub fn answer_of(reply: Reply) -> Answer
    ensures { result ≡ answer_of reply }
{
    match reply {
        Reply::Yes => Answer::Yes,
        Reply::No => Answer::No,
        Reply::Ok => Answer::Ok,
        Reply::Empty => Answer::Empty,
        Reply::Cue(key) => Answer::Cue(Cue::of_key(key)),
    }
}

// A script of at most 256 cues and a queue of at most 64, each cue by its key.
#[derive(Clone, Drop)]
pub struct SharedObject {
    script: SortedKeys<256>,
    queue: SortedKeys<64>,
}

impl Model for SharedObject {
    ghost use Rattle.boosting.specs.Object.{State};

    ghost Value = { State };

    ghost view = { λ s. record { script = s.script; queue = s.queue } };
}

impl SharedObject {
    #[tactic(auto, unfolding(boosting::specs::Store::started))]
    pub fn new() -> Self
        ensures { result ≡ started [] }
    {
        SharedObject {
            script: SortedKeys::new(),
            queue: SortedKeys::new(),
        }
    }

    // Starts again with these keys as the script and an empty queue. Their order is asked for, since a slice has no
    // invariant.
    #[tactic(auto, unfolding(boosting::specs::Store::started))]
    pub fn open(&mut self, keys: &[u64])
        requires fits { length keys.now ≤ 256 }
        requires in_order { Ordered 0 keys.now }
        ensures { self.new ≡ started keys.now }
    {
        self.script.copy_from(keys);
        self.queue.clear();
    }

    // The script's keys. Their order is a clause, since a slice has no invariant.
    pub fn script(&self) -> &[u64]
        ensures value { result.now ≡ self.now.script }
        ensures fits { length result.now ≤ 256 }
        ensures in_order { Ordered 0 self.now.script }
    {
        self.script.as_slice()
    }

    // The queue's keys, likewise.
    pub fn queue(&self) -> &[u64]
        ensures value { result.now ≡ self.now.queue }
        ensures fits { length result.now ≤ 64 }
        ensures in_order { Ordered 0 self.now.queue }
    {
        self.queue.as_slice()
    }

    // What a call is answered.
    #[inline(always)]
    #[tactic(auto, unfolding(boosting::specs::Object::reply))]
    pub fn reply(&self, call: Call) -> Reply
        ensures { result ≡ reply_of call self.now }
    {
        match call {
            Call::Add(key) => Reply::from(!self.script.contains(key)),
            Call::Remove(key) | Call::Has(key) => Reply::from(self.script.contains(key)),
            Call::Push(_) => Reply::Ok,
            Call::Min | Call::Take => match self.queue.first() {
                Some(key) => Reply::Cue(key),
                None => Reply::Empty,
            },
        }
    }

    // Does a call, and says what it is answered.
    pub fn apply(&mut self, call: Call) -> Reply
        requires { HasRoom (effect call self.old) }
        ensures reply { result ≡ reply_of call self.old }
        ensures state { self.new ≡ effect call self.old }
    {
        let reply = self.reply(call);
        self.apply_known(call, reply);
        reply
    }

    // Does a call whose reply is known, so that the script is searched once more only where it changes. Tried without
    // it: the input that mostly waits takes 0.53 of plain Rust's time, and the bar is 0.5.
    #[inline(always)]
    #[tactic(auto, using(crate::proofs::Calls::unchanged_rules), unfolding(boosting::specs::Object::effect))]
    pub fn apply_known(&mut self, call: Call, reply: Reply)
        requires has_room { HasRoom (effect call self.old) }
        requires known { reply ≡ reply_of call self.old }
        ensures { self.new ≡ effect call self.old }
    {
        match call {
            Call::Add(key) => {
                if let Reply::Yes = reply {
                    self.script.insert(key);
                }
            }
            Call::Remove(key) => {
                if let Reply::Yes = reply {
                    self.script.remove(key);
                }
            }
            Call::Push(key) => self.queue.insert(key),
            Call::Take => {
                let _ = self.queue.remove_first();
            }
            Call::Has(_) | Call::Min => {}
        }
    }

    // Takes back what an entry notes.
    #[tactic(auto, unfolding(boosting::specs::Undo::inverse))]
    pub fn undo(&mut self, entry: Entry)
        requires { HasRoom (inverse entry self.old) }
        ensures { self.new ≡ inverse entry self.old }
    {
        match entry {
            Entry::Added(key) => {
                self.script.remove(key);
            }
            Entry::Removed(key) => {
                self.script.insert_once(key);
            }
            Entry::Pushed(key) => {
                self.queue.remove(key);
            }
            Entry::Taken(key) => self.queue.insert(key),
        }
    }
}
