// The undo log of one transaction: what its accepted calls changed, at most 16 entries.
//
// Clauses see the entries as the model does, newest first. How many of them note a take is counted as they come and go,
// since each keeps a slot of the queue; that the count is right is the type's invariant.
#![tactic(auto)]

ghost use Rattle.std.specs.Prelude.{◌≡◌, ◌<◌, ◌≤◌, [], ◌∷◌, length, reverse};
ghost use Rattle.boosting.specs.Room.{takes_by};
ghost use Rattle.undo_logs.specs.Log.{newest, older};

use arrayvec::ArrayVec;
use std::marker::Model;
use vocabulary::Entry;

#[derive(Clone, Drop)]
pub struct UndoLog {
    entries: ArrayVec<Entry, 16>,
    takes: u8,
}

impl Model for UndoLog {
    ghost use Rattle.std.specs.Prelude.{◌≡◌, ◌≤◌, List, length, reverse};
    ghost use Rattle.vocabulary.specs.declared.Entry.{Entry as ModelEntry};
    ghost use Rattle.boosting.specs.Room.{takes_by};

    ghost Value = { List ModelEntry };

    ghost view = { λ l. reverse l.entries.items };

    ghost invariant = { λ l. (length l.entries.items ≤ 16) × (l.takes ≡ takes_by (reverse l.entries.items)) };
}

#[tactic(auto, using(crate::proofs::Takes::takes_rules), unfolding(boosting::specs::Room::takes_by))]
impl UndoLog {
    pub fn new() -> Self
        ensures { result ≡ [] }
    {
        UndoLog {
            entries: ArrayVec::new(),
            takes: 0,
        }
    }

    // Takes all entries out, where they stand; why is said at `HeldLocks::clear`.
    pub fn clear(&mut self)
        ensures { self.new ≡ [] }
    {
        self.entries.clear();
        self.takes = 0;
    }

    // How many entries there are.
    pub fn len(&self) -> usize
        ensures value { result ≡ length self.now }
        ensures fits { result ≤ 16 }
    {
        self.entries().len()
    }

    // How many entries note a take.
    pub fn takes(&self) -> u8
        ensures value { result ≡ takes_by self.now }
        ensures fits { result ≤ 16 }
    {
        self.takes
    }

    // The entries, the oldest first.
    pub fn entries(&self) -> &[Entry]
        ensures value { reverse result.now ≡ self.now }
        ensures fits { length result.now ≤ 16 }
    {
        self.entries.as_slice()
    }

    // Notes one more entry. There has to be room.
    #[inline(always)]
    pub fn note(&mut self, entry: Entry)
        requires { length self.old < 16 }
        ensures { self.new ≡ entry ∷ self.old }
    {
        match entry {
            Entry::Taken(_) => self.takes += 1,
            Entry::Added(_) | Entry::Removed(_) | Entry::Pushed(_) => {}
        }
        self.entries.push(entry);
    }

    // Takes out the newest entry, if there is one.
    pub fn take_newest(&mut self) -> Option<Entry>
        ensures newest { result ≡ newest self.old }
        ensures rest { self.new ≡ older self.old }
    {
        let entry = self.entries.pop()?;
        match entry {
            Entry::Taken(_) => self.takes -= 1,
            Entry::Added(_) | Entry::Removed(_) | Entry::Pushed(_) => {}
        }
        Some(entry)
    }
}
