// The closing lists: the script and the queue as the program prints them at the end, each its count and its cue lines
// in order.
//
// They are written into a lent buffer, whole or not at all. Their keys may stand in any order. A `requires` asks for at
// most 256 keys in each: a slice has no such limit, and the writer of cue lines (`script_texts`) writes no more.
#![tactic(auto)]

ghost use Rattle.std.specs.Prelude.{◌≡◌, ◌+◌, ◌≤◌, length};
ghost use Rattle.buffers.specs.Written.{written_at};
ghost use Rattle.closing_lists.specs.Closing.{state_of, list_text, closing_text};

use buffers::fits;
use digits::digit_count;
use refusals::Refusal;
use script_texts::{cues_length, write_cues};
use word_lines::write_number_line;

// How many bytes a list has: the word and the count of the keys with LF, then their cue lines. The lists are written
// whole or not at all, so they are counted first. One function over a counter and a writer would be no plainer: it
// needs a trait of two methods with two impls, for two functions of a line or two.
#[tactic(auto, using(crate::proofs::Fitting::list_length))]
fn list_length(word: &[u8], keys: &[u64]) -> usize
    requires { length keys.now ≤ 256 }
    ensures counted { result ≡ length (list_text word.now keys.now) }
    ensures at_most { result ≤ length word.now + 16149 }
{
    // `as`: u64 has no `From<usize>`
    word.len() + digit_count(keys.len() as u64) + 1 + cues_length(keys)
}

// How many bytes both lists have.
#[tactic(auto, using(crate::proofs::Fitting::both_counted))]
pub fn closing_length(script: &[u64], queue: &[u64]) -> usize
    requires script { length script.now ≤ 256 }
    requires queue { length queue.now ≤ 256 }
    ensures counted { result ≡ length (closing_text (state_of script.now queue.now)) }
    ensures at_most { result ≤ 40000 }
{
    list_length(b"script,", script) + list_length(b"queue,", queue)
}

// Writes a list at a place where it fits.
fn write_list(buf: &mut [u8], at: usize, word: &[u8], keys: &[u64]) -> Result<usize, Refusal>
    requires few { length keys.now ≤ 256 }
    requires has_room { at + length (list_text word.now keys.now) ≤ length buf.old }
    ensures { (result, buf.new) ≡ written_at buf.old at (list_text word.now keys.now) }
{
    // `as`: u64 has no `From<usize>`
    let middle = write_number_line(buf, at, word, keys.len() as u64)?;
    write_cues(buf, middle, keys)
}

// Writes both lists at a place of the buffer, if they fit there.
#[tactic(auto, using(buffers::proofs::Rest::no_room_left))]
pub fn write_closing(
    buf: &mut [u8],
    at: usize,
    script: &[u64],
    queue: &[u64],
) -> Result<usize, Refusal>
    requires script { length script.now ≤ 256 }
    requires queue { length queue.now ≤ 256 }
    ensures { (result, buf.new) ≡ written_at buf.old at (closing_text (state_of script.now queue.now)) }
{
    if !fits(buf.len(), at, closing_length(script, queue)) {
        return Err(Refusal::BufferTooShort);
    }
    let middle = write_list(buf, at, b"script,", script)?;
    write_list(buf, middle, b"queue,", queue)
}
