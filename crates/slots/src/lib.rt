// Slots: whether the script and the queue have room for one more cue, with the slots that undo entries keep.
//
// An add or remove entry keeps the slot of its cue in the script, a take entry one slot of the queue. The queue's slots
// are a sum of counts; those of the script are gathered in a scratch table, and only where there can be too many.
//
// Object and transactions are two parameters: they are the two fields of the store, which stands above.
#![tactic(auto)]

ghost use Rattle.std.specs.Prelude.{◌≡◌, ◌+◌, ◌<◌, ◌≤◌, [], ◌∷◌, nat_le, length, Some};
ghost use Rattle.boosting.specs.Undo.{added};
ghost use Rattle.boosting.specs.Room.{reserved_by, reserved_in, takes_in, script_full};
ghost use Rattle.slots.specs.Entries.{entries_in};

use shared_object::SharedObject;
use sorted_keys::SortedKeys;
use transactions::Transaction;
use undo_logs::UndoLog;
use vocabulary::Entry;

// The script's cues, and one more for each of the 128 entries that eight logs have at most; one slot is spare.
const MOST: usize = 385;

// How many entries the logs have together: an entry keeps at most one slot, of the script or of the queue. This and the
// next differ in what they add up: one function over a closure would be no shorter.
#[tactic(auto, using(crate::proofs::Counts::entries_next), unfolding(crate::specs::Entries::entries_in))]
fn all_entries(transactions: &[Transaction; 8]) -> usize
    ensures value { result ≡ entries_in transactions.now }
    ensures fits { result ≤ 128 }
{
    let mut entries = 0;
    for transaction in transactions {
        entries += transaction.log().len();
    }
    entries
}

// The queue's slots in use: its cues, and the take entries of the logs.
#[tactic(auto, using(crate::proofs::Counts::takes_next), unfolding(boosting::specs::Room::takes_in))]
fn queue_slots(queue: &[u64], transactions: &[Transaction; 8]) -> usize
    ensures { result ≡ length queue.now + takes_in transactions.now }
{
    let mut slots = queue.len();
    for transaction in transactions {
        slots += usize::from(transaction.log().takes());
    }
    slots
}

// Whether a 65th slot of the queue is needed.
pub fn queue_full(queue: &[u64], transactions: &[Transaction; 8]) -> bool
    ensures { result ≡ nat_le 64 (length queue.now + takes_in transactions.now) }
{
    64 <= queue_slots(queue, transactions)
}

// The slot that an entry keeps is put among those that are there: only add and remove entries keep one.
#[tactic(auto, using(crate::proofs::Reserved::entry_rules), unfolding(boosting::specs::Room::reserved_by))]
fn reserve_entry(slots: &mut SortedKeys<MOST>, entry: Entry)
    requires { length slots.old < 385 }
    ensures { slots.new ≡ reserved_by (entry ∷ []) slots.old }
{
    match entry {
        Entry::Added(key) | Entry::Removed(key) => {
            slots.insert_once(key);
        }
        Entry::Pushed(_) | Entry::Taken(_) => {}
    }
}

// The slots that a log keeps are put among those that are there, each once.
#[tactic(auto, using(crate::proofs::Reserved::log_rules))]
fn reserve_log(slots: &mut SortedKeys<MOST>, log: &UndoLog)
    requires { length slots.old + 16 ≤ 385 }
    ensures with_them { slots.new ≡ reserved_by log.now slots.old }
    ensures at_most { length slots.new ≤ length slots.old + 16 }
{
    for entry in log.entries() {
        reserve_entry(slots, *entry);
    }
}

// The cues that have a slot of the script.
fn reserve_all(slots: &mut SortedKeys<MOST>, object: &SharedObject, transactions: &[Transaction; 8])
    ensures { slots.new ≡ reserved_in transactions.now object.now.script }
{
    slots.copy_from(object.script());
    for transaction in transactions.iter().rev() {
        reserve_log(slots, transaction.log());
    }
}

// Whether the cue needs a 257th slot of the script. The slots are gathered only where there can be so many.
#[tactic(auto, using(crate::proofs::Reserved::room_rules))]
pub fn script_full(object: &SharedObject, transactions: &[Transaction; 8], key: u64) -> bool
    ensures { result ≡ script_full (Some (added key)) (reserved_in transactions.now object.now.script) }
{
    if object.script().len() + all_entries(transactions) < 256 {
        return false;
    }
    let mut slots = SortedKeys::new();
    reserve_all(&mut slots, object, transactions);
    256 <= slots.len() && !slots.contains(key)
}
