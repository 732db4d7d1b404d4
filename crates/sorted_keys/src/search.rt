// Where a key stands in a sorted slice, or would stand: its rank, which is how many keys are below it.
//
// In which half it is cannot be guessed, so the search does not branch on it where all keys are below 2^63; the order
// says that they are where the last one is. For larger keys there is the library's search. The order is asked for:
// these take any slice, which has no invariant, and so slice and key stand side by side. A type that has the order is
// `SortedKeys`.
ghost use Rattle.std.specs.Prelude.{◌≡◌, ◌-◌, ◌^◌, ◌<◌, ◌≤◌, if◌then◌else◌, nat_lt, length, slice_index};
ghost use Rattle.tables.specs.Table.{Ordered, rank_of, member_of};
ghost use Rattle.sorted_keys.specs.Found.{found_of};

// `count` where `other` is below `key`, else 0: multiplied by the difference's top bit, which no branch has to guess.
#[tactic(auto, using(crate::proofs::Halves::carry_rules))]
fn if_below(other: u64, key: u64, count: usize) -> usize
    requires other { other < 2 ^ 63 }
    requires key { key < 2 ^ 63 }
    ensures { result ≡ (if nat_lt other key then count else 0) }
{
    // `as`: a bit of a `u64` has no `From` into `usize`.
    count * ((key + 0x7fff_ffff_ffff_ffff - other) >> 63) as usize
}

// For keys of which the last is below 2^63, and a key that is at most the last.
#[tactic(auto, using(crate::proofs::Halves::halving_rules))]
fn rank_by_bits(keys: &[u64], key: u64) -> usize
    requires some { 0 < length keys.now }
    requires in_order { Ordered 0 keys.now }
    requires small { slice_index keys.now (length keys.now - 1) < 2 ^ 63 }
    requires at_most_last { key ≤ slice_index keys.now (length keys.now - 1) }
    ensures { result ≡ rank_of key keys.now }
{
    let mut low = 0;
    let mut left = keys.len();
    // No `for`: what is left is halved, and nothing is counted.
    while left > 1 {
        let half = left / 2;
        low += if_below(keys[low + half - 1], key, half);
        left -= half;
    }
    low + if_below(keys[low], key, 1)
}

// For keys of any size, by the library's search. Alone it was tried: it branches, and reading a script took 1.02 of
// plain Rust's time. The bar is 0.8, and the two together meet it.
fn rank_by_branches(keys: &[u64], key: u64) -> usize
    requires { Ordered 0 keys.now }
    ensures { result ≡ rank_of key keys.now }
{
    keys.partition_point(|other| *other < key)
}

#[tactic(auto, using(crate::proofs::Halves::last_rules))]
pub fn rank(keys: &[u64], key: u64) -> usize
    requires { Ordered 0 keys.now }
    ensures { result ≡ rank_of key keys.now }
{
    if keys.is_empty() {
        return 0;
    }
    let last = keys[keys.len() - 1];
    if last < key {
        return keys.len();
    }
    if last < 0x8000_0000_0000_0000 {
        return rank_by_bits(keys, key);
    }
    rank_by_branches(keys, key)
}

// Whether the key stands in the slice, by its rank.
#[tactic(auto, using(crate::proofs::Keys::keys_rules))]
pub fn stands_at(keys: &[u64], at: usize, key: u64) -> bool
    requires in_order { Ordered 0 keys.now }
    requires at_rank { at ≡ rank_of key keys.now }
    ensures { result ≡ member_of key keys.now }
{
    at < keys.len() && keys[at] == key
}

// Where the key stands, or would stand where it does not: as the library's `binary_search` answers, but by `rank`, and
// of equal keys the first. Inlined, so that no answer is made in memory.
#[inline(always)]
pub(crate) fn find(keys: &[u64], key: u64) -> Result<usize, usize>
    requires { Ordered 0 keys.now }
    ensures { result ≡ found_of key keys.now }
{
    let at = rank(keys, key);
    if stands_at(keys, at, key) {
        Ok(at)
    } else {
        Err(at)
    }
}
