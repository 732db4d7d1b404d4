// Scripts, written as their normal form into a lent buffer.
//
// The normal form of a script has its cues in rising order, a line each. It is written whole or not at all, and bytes
// beside it stay. No public function has a `requires`.
#![tactic(auto)]

ghost use Rattle.std.specs.Prelude.{◌≡◌, ◌≤◌, length, take};
ghost use Rattle.buffers.specs.Written.{written_at};
ghost use Rattle.scripts.specs.ScriptText.{text_of};

use buffers::fits;
use cue_texts::{cue_length, write_cue};
use cues::Cue;
use refusals::Refusal;
use scripts::Script;

// The keys of a table: all of them, but never more than 256, so that no length of their text can wrap.
#[tactic(auto, using(scripts::proofs::First::take_rules))]
fn first_keys(keys: &[u64]) -> &[u64]
    ensures first { result.now ≡ take 256 keys.now }
    ensures few { length result.now ≤ 256 }
    ensures whole { length keys.now ≤ 256 → result.now ≡ keys.now }
{
    &keys[..keys.len().min(256)]
}

// How many bytes the lines of a table's cues have, of the first 256. They are written whole or not at all, so they are
// counted first, and counting composes no line.
#[tactic(auto, using(crate::proofs::Laws::text_more_length), unfolding(scripts::specs::ScriptText::text_of))]
pub fn cues_length(keys: &[u64]) -> usize
    ensures counted { result ≡ length (text_of (take 256 keys.now)) }
    ensures whole { length keys.now ≤ 256 → result ≡ length (text_of keys.now) }
    ensures at_most { result ≤ 16128 }
{
    let mut sum = 0;
    for key in first_keys(keys) {
        sum += cue_length(Cue::of_key(*key));
    }
    sum
}

// Writes the lines of a table's cues, of the first 256, at a place of the buffer, if they fit there.
#[tactic(auto, using(buffers::proofs::Rest::no_room_left))]
pub fn write_cues(buf: &mut [u8], at: usize, keys: &[u64]) -> Result<usize, Refusal>
    ensures written { (result, buf.new) ≡ written_at buf.old at (text_of (take 256 keys.now)) }
    ensures whole { length keys.now ≤ 256 → (result, buf.new) ≡ written_at buf.old at (text_of keys.now) }
{
    if !fits(buf.len(), at, cues_length(keys)) {
        return Err(Refusal::BufferTooShort);
    }
    let mut end = at;
    for key in first_keys(keys) {
        end = write_cue(buf, end, Cue::of_key(*key))?;
    }
    Ok(end)
}

// How many bytes the normal form of a script has.
pub fn script_length(script: Script) -> usize
    ensures { result ≡ length (text_of script) }
{
    cues_length(script.keys())
}

// Writes the normal form of a script to the front of the buffer, if it fits there.
pub fn write_script(buf: &mut [u8], script: Script) -> Result<usize, Refusal>
    ensures { (result, buf.new) ≡ written_at buf.old 0 (text_of script) }
{
    write_cues(buf, 0, script.keys())
}
