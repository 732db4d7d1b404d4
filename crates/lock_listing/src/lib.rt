// The lock listing, the users' lock sheet: a line for each cue lock and each queue mode that is held.
//
// It is written into a lent buffer, whole or not at all. The promise leaves the order of the lines open; the program
// takes transaction by transaction, each with its cue locks and then its modes. No public function has a `requires`.
//
// A transaction does not know its number, so number and locks are two parameters.
#![tactic(auto)]

ghost use Rattle.std.specs.Prelude.{◌≡◌, ◌++◌, ◌+◌, ◌≤◌, length};
ghost use Rattle.buffers.specs.Written.{written_at};
ghost use Rattle.boosting.specs.Listing.{lock_line};
ghost use Rattle.lock_listing.specs.Listed.{ListingWritten, mode_text, modes_text, locks_text, listing_text};

use buffers::{fits, write_bytes};
use cue_texts::cue_line;
use cues::Cue;
use held_locks::HeldLocks;
use records::LineBuffer;
use refusals::Refusal;
use transactions::Transaction;

// The line of a cue lock.
fn lock_line(e: u64, key: u64) -> LineBuffer
    ensures text { result ≡ lock_line e key }
    ensures short { length result ≤ 89 }
{
    let mut line = LineBuffer::new();
    line.push_bytes(b"lock,");
    line.push_field(e, b',');
    line.push_bytes(cue_line(Cue::of_key(key)).as_bytes());
    line
}

// The line of a mode, behind others; a mode that is not held has none.
#[tactic(auto, using(crate::proofs::Listings::mode_rules))]
fn push_mode(lines: &mut LineBuffer, e: u64, held: bool, word: &[u8])
    requires has_room { length lines.old + 31 ≤ 96 }
    requires short_word { length word.now ≤ 5 }
    ensures added { lines.new ≡ lines.old ++ mode_text e held word.now }
    ensures short { length lines.new ≤ length lines.old + 31 }
{
    if held {
        lines.push_bytes(b"mode,");
        lines.push_field(e, b',');
        lines.push_bytes(word);
    }
}

// The lines of a transaction's modes: three short ones at most.
#[tactic(auto, using(crate::proofs::Listings::modes_in_order))]
fn mode_lines(e: u64, locks: &HeldLocks) -> LineBuffer
    ensures text { result ≡ modes_text e locks.now }
    ensures short { length result ≤ 93 }
{
    let mut lines = LineBuffer::new();
    push_mode(&mut lines, e, locks.pushes(), b"push\n");
    push_mode(&mut lines, e, locks.looks(), b"look\n");
    push_mode(&mut lines, e, locks.takes(), b"take\n");
    lines
}

// How many bytes the lines of a transaction's locks have. The listing is written whole or not at all, so they are
// counted first.
#[tactic(auto, using(crate::proofs::Listings::locks_next_length), unfolding(boosting::specs::Listing::lock_lines))]
fn locks_length(e: u64, locks: &HeldLocks) -> usize
    ensures counted { result ≡ length (locks_text e locks.now) }
    ensures short { result ≤ 2229 }
{
    let mut sum = mode_lines(e, locks).as_bytes().len();
    for key in locks.cues() {
        sum += lock_line(e, *key).as_bytes().len();
    }
    sum
}

// How many bytes the lock listing has, in every order of its lines.
#[tactic(auto, using(crate::proofs::Listings::listing_rules))]
pub fn listing_length(transactions: &[Transaction; 8]) -> usize
    ensures counted { result ≡ length (listing_text transactions.now) }
    ensures short { result ≤ 17832 }
{
    let mut sum = 0;
    for (i, transaction) in transactions.iter().enumerate() {
        // `as`: u64 has no `From<usize>`
        sum += locks_length(i as u64 + 1, transaction.locks());
    }
    sum
}

// Writes the lines of a transaction's locks at a place where they fit.
fn write_locks(buf: &mut [u8], at: usize, e: u64, locks: &HeldLocks) -> Result<usize, Refusal>
    requires { at + length (locks_text e locks.now) ≤ length buf.old }
    ensures { (result, buf.new) ≡ written_at buf.old at (locks_text e locks.now) }
{
    let mut middle = at;
    for key in locks.cues() {
        middle = write_bytes(buf, middle, lock_line(e, *key).as_bytes())?;
    }
    write_bytes(buf, middle, mode_lines(e, locks).as_bytes())
}

// Writes the lock listing at a place of the buffer, if it fits there.
#[tactic(auto, using(crate::proofs::Listings::listing_rules))]
pub fn write_listing(
    buf: &mut [u8],
    at: usize,
    transactions: &[Transaction; 8],
) -> Result<usize, Refusal>
    ensures { ListingWritten transactions.now at buf.old buf.new result }
{
    if !fits(buf.len(), at, listing_length(transactions)) {
        return Err(Refusal::BufferTooShort);
    }
    let mut end = at;
    for (i, transaction) in transactions.iter().enumerate() {
        // `as`: u64 has no `From<usize>`
        end = write_locks(buf, end, i as u64 + 1, transaction.locks())?;
    }
    Ok(end)
}
