// Script texts, read into a sorted table of keys.
ghost use Rattle.std.specs.Prelude.{◌≡◌, ℕ, List, [], ◌≤◌, length, take, Ok};
ghost use Rattle.lines.specs.Lines.{lines_of};
ghost use Rattle.cue_lines.specs.CueLine.{cue_line_of};
ghost use Rattle.tables.specs.Table.{Ordered};
ghost use Rattle.scripts.specs.Script.{by_key, by_line, read_from, script_of};
ghost use Rattle.scripts.specs.Taken.{taken};

use cue_lines::read_cue;
use line_reader::LineReader;
use refusals::{Refusal, RefusedText, check_length};
use sorted_keys::{SortedKeys, Words};
use std::marker::Model;

// At most 256 words, each written as the cue that `Cue::of_key` makes of it. Clauses see them as they stand: those of a
// script that is read are in order, each once (`ReadIsSound`).
#[derive(Clone, Drop)]
pub struct Script {
    keys: Words<256>,
}

impl Model for Script {
    ghost Value = { List ℕ };

    ghost view = { λ s. s.keys };
}

impl Script {
    // The script of no cues.
    pub fn new() -> Self
        ensures { result ≡ [] }
    {
        Script { keys: Words::new() }
    }

    // The script of these words, whatever they are; of the first 256, where there are more.
    #[tactic(auto, using(crate::proofs::First::take_rules))]
    pub fn of_keys(keys: &[u64]) -> Self
        ensures first { result ≡ take 256 keys.now }
        ensures whole { length keys.now ≤ 256 → result ≡ keys.now }
    {
        let mut script = Script::new();
        script.keys.copy_from(&keys[..keys.len().min(256)]);
        script
    }

    // Those of a script that is read are in order, and so are those of the empty one.
    #[tactic(auto, using(crate::proofs::Theorems::read_in_order))]
    pub fn keys(&self) -> &[u64]
        ensures value { result.now ≡ self.now }
        ensures fits { length result.now ≤ 256 }
        ensures in_order { (text : List ℕ) → Ok self.now ≡ script_of text → Ordered 0 self.now }
    {
        self.keys.as_slice()
    }
}

// Puts a key into the table, unless it is there. One search a line: a full table is only asked.
#[tactic(auto, using(crate::proofs::ReadLaws::key_rules))]
fn take_key(keys: &mut SortedKeys<256>, key: u64) -> Result<(), Refusal>
    ensures { taken result keys.new ≡ by_key keys.old key }
{
    if keys.len() < 256 {
        keys.insert_once(key);
    } else if !keys.contains(key) {
        return Err(Refusal::ScriptFull);
    }
    Ok(())
}

// Puts the cue of a line into the table.
fn take_line(keys: &mut SortedKeys<256>, line: &[u8]) -> Result<(), Refusal>
    ensures { taken result keys.new ≡ by_line keys.old (cue_line_of line.now) }
{
    let cue = read_cue(line)?;
    take_key(keys, cue.key())
}

// Puts the cues of all lines of a text into the table.
fn take_lines(keys: &mut SortedKeys<256>, text: &[u8]) -> Result<(), RefusedText>
    ensures { taken result keys.new ≡ read_from 1 keys.old (lines_of text.now) }
{
    for (index, line) in LineReader::new(text).enumerate() {
        let number = index + 1;
        take_line(keys, line).map_err(|refusal| RefusedText {
            refusal,
            line: number,
        })?;
    }
    Ok(())
}

// The script of a text; or the first row that it meets, with the line.
#[tactic(auto, using(crate::proofs::ReadLaws::text_rules))]
pub fn read_script(text: &[u8]) -> Result<Script, RefusedText>
    ensures { result ≡ script_of text.now }
{
    check_length(text)?;
    let mut keys = SortedKeys::new();
    take_lines(&mut keys, text)?;
    Ok(Script {
        keys: keys.into_words(),
    })
}

#[cfg(test)]
mod tests {
    use super::*;
    use std::test::Fail;

    // The lines stand in any order, one of them twice.
    #[test]
    fn keys_of_a_text_in_order(rt: HostRuntime) -> Result<(), Fail> {
        let script = read_script(b"1,1,1\n0,2,1\n0,1,1\n0,2,1\n")?;
        assert_eq!(rt; script.keys(), [257, 513, 65793].as_slice());
        Ok(())
    }

    #[test]
    fn keys_of_words_as_they_stand(rt: HostRuntime) {
        let script = Script::of_keys(&[513, 257, 513]);
        assert_eq!(rt; script.keys(), [513, 257, 513].as_slice());
    }
}
