// The locks that a transaction holds: cue locks, each once and at most 24, and the queue's modes.
//
// Clauses see them as the model's `Locks`. The sieve, a word with the bit of each cue lock and no other, rules most
// keys out at a glance; that it is the one of these locks is the type's invariant.
#![tactic(auto)]

ghost use Rattle.std.specs.Prelude.{◌≡◌, ◌<◌, ◌≤◌, ◌^◌, false, length};
ghost use Rattle.std.specs.Int.Bits.{bit_or};
ghost use Rattle.tables.specs.Table.{member_of};
ghost use Rattle.boosting.specs.Locks.{no_locks, hold, conflicts};
ghost use Rattle.boosting.specs.Room.{locks_full};
ghost use Rattle.held_locks.specs.Sieve.{sieve_bit, sieve_of, passes};

use arrayvec::ArrayVec;
use std::marker::Model;
use vocabulary::Lock;

// A transaction may hold each of the queue's modes, so there are three flags and no enum of them.
#[derive(Clone, Drop)]
pub struct HeldLocks {
    cues: ArrayVec<u64, 24>,
    pushes: bool,
    looks: bool,
    takes: bool,
    sieve: u64,
}

impl Model for HeldLocks {
    ghost use Rattle.boosting.specs.Locks.{Locks};
    ghost use Rattle.std.specs.Prelude.{◌≡◌};
    ghost use Rattle.held_locks.specs.Sieve.{sieve_of};

    ghost Value = { Locks };

    ghost view = { λ l. record { cues = l.cues.items; pushes = l.pushes; looks = l.looks; takes = l.takes } };

    ghost invariant = { λ l. l.sieve ≡ sieve_of l.cues.items };
}

// The bit of a key in the sieve: the sum of the low bits of its pin and of its time, which costs no multiplication.
#[inline(always)]
pub fn sieve_bit(key: u64) -> u64
    ensures value { result ≡ sieve_bit key }
    ensures fits { result < 64 }
{
    (key % 64 + key / 65536 % 64) % 64
}

// Whether the sieve has the key's bit.
#[inline(always)]
fn passes(sieve: u64, key: u64) -> bool
    ensures { result ≡ passes sieve key }
{
    (sieve >> sieve_bit(key)) % 2 == 1
}

// The sieve with the key's bit set.
#[inline(always)]
#[tactic(auto, using(crate::proofs::Sieves::bit_made))]
fn with_bit(sieve: u64, key: u64) -> u64
    ensures { result ≡ bit_or sieve (2 ^ sieve_bit key) }
{
    sieve | (1 << sieve_bit(key))
}

impl HeldLocks {
    #[tactic(auto, using(crate::proofs::Sieves::sieve_none), unfolding(boosting::specs::Locks::no_locks))]
    pub fn new() -> Self
        ensures { result ≡ no_locks }
    {
        HeldLocks {
            cues: ArrayVec::new(),
            pushes: false,
            looks: false,
            takes: false,
            sieve: 0,
        }
    }

    // Lets all locks go, where they stand. A new value in place of these writes every blank: tried here and in the undo
    // log, and the input that mostly waits takes 0.51 of plain Rust's time, where the bar is 0.5.
    #[tactic(auto, using(crate::proofs::Sieves::sieve_none), unfolding(boosting::specs::Locks::no_locks))]
    pub fn clear(&mut self)
        ensures { self.new ≡ no_locks }
    {
        self.cues.clear();
        self.pushes = false;
        self.looks = false;
        self.takes = false;
        self.sieve = 0;
    }

    // The keys of the cue locks, the oldest first.
    pub fn cues(&self) -> &[u64]
        ensures value { result.now ≡ self.now.cues }
        ensures fits { length result.now ≤ 24 }
    {
        self.cues.as_slice()
    }

    // Whether the queue's mode push is held.
    pub fn pushes(&self) -> bool
        ensures { result ≡ self.now.pushes }
    {
        self.pushes
    }

    // Whether the queue's mode look is held.
    pub fn looks(&self) -> bool
        ensures { result ≡ self.now.looks }
    {
        self.looks
    }

    // Whether the queue's mode take is held.
    pub fn takes(&self) -> bool
        ensures { result ≡ self.now.takes }
    {
        self.takes
    }

    // Whether a cue lock with this key may be held, by the sieve alone. Where this is false, it is not.
    #[inline(always)]
    #[tactic(auto, using(crate::proofs::Sieves::sieve_rules))]
    pub fn may_hold(&self, key: u64) -> bool
        ensures by_sieve { result ≡ passes (sieve_of self.now.cues) key }
        ensures sure { result ≡ false → member_of key self.now.cues ≡ false }
    {
        passes(self.sieve, key)
    }

    // Whether a cue lock with this key is held. `inline(always)`: as a call it costs the input that mostly waits 4 %.
    #[inline(always)]
    #[tactic(auto, using(crate::proofs::Members::member_any))]
    pub fn holds_cue(&self, key: u64) -> bool
        ensures { result ≡ member_of key self.now.cues }
    {
        self.may_hold(key) && self.cues().contains(&key)
    }

    // Whether the lock is in conflict with one of these.
    #[inline(always)]
    #[tactic(auto, unfolding(boosting::specs::Locks::conflicts))]
    pub fn conflicts(&self, lock: Lock) -> bool
        ensures { result ≡ conflicts lock self.now }
    {
        // The modes by `|`, which does not branch as `||` does.
        match lock {
            Lock::Cue(key) => self.holds_cue(key),
            Lock::Push => self.looks | self.takes,
            Lock::Look => self.pushes | self.takes,
            Lock::Take => self.pushes | self.looks | self.takes,
        }
    }

    // Whether the lock would be the 25th on a cue.
    #[inline(always)]
    pub fn is_full(&self, lock: Lock) -> bool
        ensures { result ≡ locks_full lock self.now }
    {
        match lock {
            Lock::Cue(key) => self.cues.is_full() && !self.holds_cue(key),
            Lock::Push | Lock::Look | Lock::Take => false,
        }
    }

    // Holds the lock, once, besides those that were. There has to be room.
    #[inline(always)]
    #[tactic(auto, using(crate::proofs::Sieves::sieve_rules), unfolding(boosting::specs::Locks::hold))]
    pub fn hold(&mut self, lock: Lock)
        requires { locks_full lock self.old ≡ false }
        ensures { self.new ≡ hold lock self.old }
    {
        match lock {
            Lock::Cue(key) => {
                if !self.holds_cue(key) {
                    self.cues.push(key);
                    self.sieve = with_bit(self.sieve, key);
                }
            }
            Lock::Push => self.pushes = true,
            Lock::Look => self.looks = true,
            Lock::Take => self.takes = true,
        }
    }
}
