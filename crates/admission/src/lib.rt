// Admission: the rows of the table that turn a call away, 8 to 12, in their order.
//
// The search for a lock in the way (`conflicts`) comes first, and the count of slots (`slots`) last, as the rows do. A
// function leaves at the first row that is met. Nothing is changed. The rows before these are in the store's own match.
//
// Object and transactions are two parameters: they are the two fields of the store, which stands above. So are the
// transactions and a number: a type around the array, to index it by the number, would be no plainer than `e.index()`.
#![tactic(auto)]

ghost use Rattle.std.specs.Prelude.{◌≡◌};
ghost use Rattle.boosting.specs.Object.{reply as reply_of};
ghost use Rattle.boosting.specs.Rows.{when, call_rows, first_met};
ghost use Rattle.admission.specs.Answers.{admitted, room_rows, store_of};

use conflicts::find_blocker;
use refusals::Refusal;
use shared_object::{SharedObject, entry_of, lock_of};
use slots::{queue_full, script_full};
use transactions::{Transaction, TransactionNumber};
use vocabulary::{Call, Entry, Reply};

// The refusal, where its row is met.
#[inline(always)]
fn refused_when(met: bool, refusal: Refusal) -> Result<(), Refusal>
    ensures { result ≡ admitted (when met refusal) tt }
{
    if met {
        return Err(refusal);
    }
    Ok(())
}

// Rows 10 to 12: room for the entry that a call notes, and for its slot.
#[inline(always)]
fn try_entry(
    object: &SharedObject,
    transactions: &[Transaction; 8],
    e: TransactionNumber,
    noted: Option<Entry>,
) -> Result<(), Refusal>
    ensures { result ≡ admitted (first_met (room_rows (store_of object.now transactions.now) e noted)) tt }
{
    let Some(entry) = noted else {
        return Ok(());
    };
    if 16 <= transactions[e.index()].log().len() {
        return Err(Refusal::UndoLogFull);
    }
    match entry {
        Entry::Added(key) => refused_when(
            script_full(object, transactions, key),
            Refusal::ScriptFull,
        ),
        Entry::Pushed(_) => refused_when(
            queue_full(object.queue(), transactions),
            Refusal::QueueFull,
        ),
        Entry::Removed(_) | Entry::Taken(_) => Ok(()),
    }
}

// Rows 8 to 12, those of a call of transaction e: its reply, where none is met.
#[inline(always)]
pub fn try_call(
    object: &SharedObject,
    transactions: &[Transaction; 8],
    e: TransactionNumber,
    call: Call,
) -> Result<Reply, Refusal>
    ensures { result
        ≡ admitted (first_met (call_rows (store_of object.now transactions.now) e call)) (reply_of call object.now) }
{
    let lock = lock_of(call);
    if let Some(holder) = find_blocker(transactions, usize::from(e), lock) {
        return Err(Refusal::Blocked(holder));
    }
    if transactions[e.index()].locks().is_full(lock) {
        return Err(Refusal::LocksFull);
    }
    let reply = object.reply(call);
    try_entry(object, transactions, e, entry_of(call, reply))?;
    Ok(reply)
}
