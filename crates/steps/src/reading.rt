// A step line, read: its word first, then each field, scanned once.
ghost use Rattle.std.specs.Prelude.{◌≡◌, ◌<◌, length, MatchOption};
ghost use Rattle.lines.specs.Lines.{up_to};
ghost use Rattle.numbers.specs.Field.{field, others};
ghost use Rattle.numbers.specs.Number.{number_of};
ghost use Rattle.cue_lines.specs.CueLine.{fields_of};
ghost use Rattle.steps.specs.Step.{cued, step_of};

use cue_lines::read_fields;
use cues::CueNumbers;
use lines::COMMA;
use numbers::{read_inner_field, read_number};
use step_words::{CueWord, NumberWord, Word, read_word};

// A step is its word and its numbers. The first number is the transaction's, which users call an edit, whatever its
// range.
#[derive(Clone, Copy, Debug, PartialEq, Eq)]
pub enum Step {
    WithNumber(NumberWord, u64),
    WithCue(CueWord, u64, CueNumbers),
}

// The step of that word with the fields `e,t,m,p`.
#[tactic(auto, using(crate::proofs::Steps::cue_rules))]
fn read_cue_step(word: CueWord, fields: &[u8]) -> Option<Step>
    ensures { result ≡ cued word (number_of (field fields.now)) (fields_of (others fields.now)) }
{
    let e = read_inner_field(fields, 0)?;
    let cue = read_fields(&fields[e.end + 1..])?;
    Some(Step::WithCue(word, e.value, cue))
}

// Where the first comma stands, if there is one. A function of its own: of a chain nothing is known behind its `?`.
fn find_comma(s: &[u8]) -> Option<usize>
    ensures { MatchOption result (up_to 44 s.now ≡ length s.now) (λ i. (i ≡ up_to 44 s.now) × (i < length s.now)) }
{
    s.iter().position(|byte| *byte == COMMA)
}

// The step of a line, without its LF. Any bytes at all will do; none where the line has not one of the ten forms.
#[tactic(auto, using(crate::proofs::Steps::no_fields))]
pub fn read_step(line: &[u8]) -> Option<Step>
    ensures { result ≡ step_of line.now }
{
    let end = find_comma(line)?;
    let fields = &line[end + 1..];
    match read_word(&line[..end])? {
        Word::WithNumber(word) => Some(Step::WithNumber(word, read_number(fields)?)),
        Word::WithCue(word) => read_cue_step(word, fields),
    }
}
