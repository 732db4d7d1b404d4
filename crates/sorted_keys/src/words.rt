// Words in an array, with how many there are: a vector of a fixed capacity. Its moves are copies within the array.
//
// The kit's `ArrayVec` was tried: the steps that mostly wait took 0.52 of plain Rust's time with it, and they meet the
// desk's bar of 0.5 without it.
ghost use Rattle.std.specs.Prelude.{◌≡◌, ℕ, ◌<◌, ◌≤◌, List, [], length, take, insert, remove};
ghost use Rattle.sorted_keys.specs.Least.{least_of, others_of};

use std::marker::Model;

#[derive(Clone, Drop)]
pub struct Words<const N: usize> {
    words: [u64; N],
    count: usize,
}

impl<const N: usize> Model for Words<N> {
    ghost Value = { List ℕ };

    ghost view = { λ w. take w.count w.words };

    ghost invariant = { λ w. w.count ≤ N };
}

impl<const N: usize> Words<N> {
    pub fn new() -> Self
        ensures { result ≡ [] }
    {
        Words {
            words: [0; N],
            count: 0,
        }
    }

    pub fn len(&self) -> usize
        ensures value { result ≡ length self.now }
        ensures fits { result ≤ N }
    {
        self.count
    }

    pub fn as_slice(&self) -> &[u64]
        ensures value { result.now ≡ self.now }
        ensures fits { length result.now ≤ N }
    {
        &self.words[..self.count]
    }

    #[inline(always)]
    pub fn clear(&mut self)
        ensures { self.new ≡ [] }
    {
        self.count = 0;
    }

    pub fn copy_from(&mut self, words: &[u64])
        requires { length words.now ≤ N }
        ensures { self.new ≡ words.now }
    {
        self.words[..words.len()].copy_from_slice(words);
        self.count = words.len();
    }

    // Puts the word at a place, and moves those from there on up by one. There has to be room.
    pub fn insert(&mut self, at: usize, word: u64)
        requires in_bounds { at ≤ length self.old }
        requires has_room { length self.old < N }
        ensures { self.new ≡ insert self.old at word }
    {
        self.words.copy_within(at..self.count, at + 1);
        self.words[at] = word;
        self.count += 1;
    }

    // Takes out the word at a place, and moves those behind it down by one.
    pub fn remove(&mut self, at: usize)
        requires { at < length self.old }
        ensures { self.new ≡ remove self.old at }
    {
        self.words.copy_within(at + 1..self.count, at);
        self.count -= 1;
    }

    // Takes out the first word, if there is one: the least, where they are in order.
    pub fn remove_first(&mut self) -> Option<u64>
        ensures least { result ≡ least_of self.old }
        ensures others { self.new ≡ others_of self.old }
    {
        let first = self.as_slice().first().copied()?;
        self.remove(0);
        Some(first)
    }
}
