// A quick look at a line of the plain form: a word, a time of at most seven digits, other numbers of at most two, and
// LF. What it finds is the line's step; of any other line it says nothing.
ghost use Rattle.std.specs.Prelude.{◌≡◌, ◌++◌, ◌+◌, ◌≤◌, length};
ghost use Rattle.records.specs.Record.{field_text};
ghost use Rattle.steps.specs.StepText.{NineDigits};
ghost use Rattle.step_words.specs.declared.Word.TheVariants.{WithCue as of_cue};
ghost use Rattle.quick_words.specs.Row.{word_line};
ghost use Rattle.quick_numbers.specs.Short.{ShortFits};
ghost use Rattle.scanning.specs.Quick.{RestFits, QuickFits};

use crate::Scanned;
use buffers::fits;
use cues::CueNumbers;
use lines::{COMMA, LF};
use quick_numbers::{Short, seven_digits, two_digits};
use quick_words::WordTable;
use step_words::{CueWord, Word};
use steps::Step;

// A quick look reads no byte past these: the longest plain line has 24 with its LF.
const REACH: usize = 32;

// Each function here asks that its bytes are there, which `quick_step` has tested once for all of them: tested at each
// number it cost 5 %.
//
// The time at a place. This and the next look through a window, so that nothing tests for the text's end again. Each
// calls another reader: one function over the window and the reader would be no shorter.
fn time_at(text: &[u8], at: usize) -> Option<Short>
    requires { at + 8 ≤ length text.now }
    ensures { ShortFits text.now at 7 result }
{
    let end = at + 8;
    seven_digits(&text[at..end], 0)
}

// A transaction's number, a module or a pin at a place.
fn small_at(text: &[u8], at: usize) -> Option<Short>
    requires { at + 2 ≤ length text.now }
    ensures { ShortFits text.now at 2 result }
{
    let end = at + 2;
    two_digits(&text[at..end], 0)
}

// The cue `t,m,p` and its LF, behind the comma of the transaction's number.
fn quick_cue(text: &[u8], at: usize, word: CueWord, e: u64) -> Option<Scanned>
    requires room { at + 14 ≤ length text.now }
    requires nine { NineDigits e }
    ensures { RestFits (word_line (of_cue word) ++ field_text e 44) text.now at result }
{
    let time = time_at(text, at)?;
    let time_end = at + time.digits;
    if text[time_end] != COMMA {
        return None;
    }
    let module = small_at(text, time_end + 1)?;
    let module_end = time_end + 1 + module.digits;
    if text[module_end] != COMMA {
        return None;
    }
    let pin = small_at(text, module_end + 1)?;
    let end = module_end + 1 + pin.digits;
    if text[end] != LF {
        return None;
    }
    let cue = CueNumbers {
        time: time.value,
        module: module.value,
        pin: pin.value,
    };
    let step = Some(Step::WithCue(word, e, cue));
    Some(Scanned { step, end })
}

// What stands behind a word's comma.
fn quick_rest(text: &[u8], at: usize, word: Word) -> Option<Scanned>
    requires { at + 17 ≤ length text.now }
    ensures { RestFits (word_line word) text.now at result }
{
    let e = small_at(text, at)?;
    let end = at + e.digits;
    match word {
        Word::WithCue(word) if text[end] == COMMA => quick_cue(text, end + 1, word, e.value),
        Word::WithNumber(word) if text[end] == LF => {
            let step = Some(Step::WithNumber(word, e.value));
            Some(Scanned { step, end })
        }
        _ => None,
    }
}

// The step of the line at a place, where the line has the plain form and does not stand at the text's very end.
pub fn quick_step(words: &WordTable, text: &[u8], at: usize) -> Option<Scanned>
    ensures { QuickFits text.now at result }
{
    if !fits(text.len(), at, REACH) {
        return None;
    }
    let found = words.quick_word(text, at)?;
    quick_rest(text, at + found.length, found.word)
}
