// Sorted keys: a collection of at most N keys in rising order, in fixed memory.
//
// A script is such a collection in which no key stands twice, a queue one in which keys may repeat; the same methods
// serve both. What a key means is in `cues`. Clauses see the list of the keys, and its order is the type's invariant.
//
// `Words`, `rank` and `stands_at` are public for words that are not such a collection: `Words` for words in any order,
// `rank` and `stands_at` for a sorted slice that stands elsewhere.
#![tactic(auto)]

ghost use Rattle.std.specs.Prelude.{◌≡◌, ℕ, ◌<◌, ◌≤◌, List, [], take, length, not};
ghost use Rattle.tables.specs.Table.{Ordered, member_of, insert_of, delete_of, put_once_of};
ghost use Rattle.sorted_keys.specs.Least.{least_of, others_of};

mod search;
mod words;

use search::find;
pub use search::{rank, stands_at};
use std::marker::Model;
pub use words::Words;

#[derive(Clone, Drop)]
pub struct SortedKeys<const N: usize> {
    keys: Words<N>,
}

impl<const N: usize> Model for SortedKeys<N> {
    ghost Value = { List ℕ };

    ghost view = { λ s. s.keys };

    ghost invariant = { λ s. Ordered 0 s.keys };
}

#[tactic(auto, using(crate::proofs::Keys::keys_rules))]
impl<const N: usize> SortedKeys<N> {
    pub fn new() -> Self
        ensures { result ≡ [] }
    {
        SortedKeys { keys: Words::new() }
    }

    pub fn len(&self) -> usize
        ensures value { result ≡ length self.now }
        ensures fits { result ≤ N }
    {
        self.keys.len()
    }

    pub fn as_slice(&self) -> &[u64]
        ensures value { result.now ≡ self.now }
        ensures fits { length result.now ≤ N }
        ensures in_order { Ordered 0 self.now }
    {
        self.keys.as_slice()
    }

    // The keys as words, which keep their order though nothing asks for it any more.
    pub fn into_words(self) -> Words<N>
        ensures { result ≡ self.entry }
    {
        let SortedKeys { keys } = self;
        keys
    }

    pub fn contains(&self, key: u64) -> bool
        ensures { result ≡ member_of key self.now }
    {
        find(self.keys.as_slice(), key).is_ok()
    }

    // Takes all keys out.
    #[inline(always)]
    pub fn clear(&mut self)
        ensures { self.new ≡ [] }
    {
        self.keys.clear();
    }

    // Takes these keys in place of its own. Their order is asked for, since a slice has no invariant.
    pub fn copy_from(&mut self, keys: &[u64])
        requires fits { length keys.now ≤ N }
        requires in_order { Ordered 0 keys.now }
        ensures { self.new ≡ keys.now }
    {
        self.keys.copy_from(keys);
    }

    // Puts the key in its place, beside an equal one too. There has to be room.
    pub fn insert(&mut self, key: u64)
        requires { length self.old < N }
        ensures { self.new ≡ insert_of key self.old }
    {
        let below = rank(self.keys.as_slice(), key);
        self.keys.insert(below, key);
    }

    // Puts the key in its place unless it is there, and says whether it was not. There has to be room for a new one.
    pub fn insert_once(&mut self, key: u64) -> bool
        requires { length (put_once_of key self.old) ≤ N }
        ensures is_new { result ≡ not (member_of key self.old) }
        ensures with_it { self.new ≡ put_once_of key self.old }
    {
        let found = find(self.keys.as_slice(), key);
        if let Err(at) = found {
            self.keys.insert(at, key);
        }
        found.is_err()
    }

    // Takes out one key that equals `key`, and says whether there was one.
    pub fn remove(&mut self, key: u64) -> bool
        ensures was_there { result ≡ member_of key self.old }
        ensures without { self.new ≡ delete_of key self.old }
    {
        let stood = find(self.keys.as_slice(), key);
        if let Ok(at) = stood {
            self.keys.remove(at);
        }
        stood.is_ok()
    }

    // The least key, if there is one.
    pub fn first(&self) -> Option<u64>
        ensures { result ≡ least_of self.now }
    {
        self.keys.as_slice().first().copied()
    }

    // Takes out the least key, if there is one.
    pub fn remove_first(&mut self) -> Option<u64>
        ensures least { result ≡ least_of self.old }
        ensures others { self.new ≡ others_of self.old }
    {
        self.keys.remove_first()
    }
}
