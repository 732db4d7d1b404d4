// The words that the model and the code of the store share: locks, standings, undo entries, calls, replies, requests.
//
// Each is declared once, here. The definitions of the model (`boosting`) compute on these types, and the contracts of
// the code speak of them with no translation. A cue stands in them by its key (`cues`). Users know some of the words by
// another name; it stands in the line above each.
#![tactic(auto)]

// A lock on the cue with this key, or one of the queue's modes: `push`, `look` and `take` of the lock sheet.
#[derive(Clone, Copy, Debug, PartialEq, Eq)]
pub enum Lock {
    Cue(u64),
    Push,
    Look,
    Take,
}

// How a transaction, which users call an edit, stands. `Aborting` is their unwinding: it still holds its locks.
#[derive(Clone, Copy, Debug, PartialEq, Eq)]
pub enum Standing {
    Closed,
    Open,
    Aborting,
}

// What the undo log, the users' log, notes of a call that changed something, with the cue's key.
#[derive(Clone, Copy, Debug, PartialEq, Eq)]
pub enum Entry {
    Added(u64),
    Removed(u64),
    Pushed(u64),
    Taken(u64),
}

// No entry stands for none: this one only fills the unused places of a log, for which `ArrayVec` wants a default. No
// derive makes one, since each kind has a key.
impl Default for Entry {
    ghost use Rattle.std.specs.Prelude.{◌≡◌};
    ghost use Rattle.vocabulary.specs.declared.Entry.TheVariants.{Added};

    ghost is_default = { λ e. e ≡ Added 0 };

    fn default() -> Self {
        Entry::Added(0)
    }
}

// A call on script and queue, with its cue's key.
#[derive(Clone, Copy, Debug, PartialEq, Eq)]
pub enum Call {
    Add(u64),
    Remove(u64),
    Has(u64),
    Push(u64),
    Min,
    Take,
}

// What a call is answered. It is no `Answer`, which is a line: here a cue is its key, on which the model computes.
#[derive(Clone, Copy, Debug, PartialEq, Eq)]
pub enum Reply {
    Yes,
    No,
    Ok,
    Empty,
    Cue(u64),
}

// Yes, if it is so.
impl From<bool> for Reply {
    ghost use Rattle.std.specs.Prelude.{◌≡◌, if◌then◌else◌};
    ghost use Rattle.vocabulary.specs.declared.Reply.TheVariants.{Yes, No};

    ghost from_gives = { λ is_so reply. reply ≡ (if is_so then Yes else No) };

    #[inline(always)]
    fn from(is_so: bool) -> Reply {
        if is_so { Reply::Yes } else { Reply::No }
    }
}

// What a step asks of a transaction. Users write `undo` for `Abort` and `back` for `RollBack`.
#[derive(Clone, Copy, Debug, PartialEq, Eq)]
pub enum Action {
    Begin,
    Commit,
    Abort,
    RollBack,
    // A call; none where its cue's numbers are out of range.
    OnObject(Option<Call>),
}

// What a step line asks for: the transaction's number, whatever its range, and an action. A malformed line asks none.
#[derive(Clone, Copy, Debug, PartialEq, Eq)]
pub struct Request {
    pub transaction: u64,
    pub action: Action,
}
