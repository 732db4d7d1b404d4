// Answers to steps, written: the line that is printed for each.
//
// A line is written whole, with its LF, or not at all. No public function has a `requires`.
#![tactic(auto)]

ghost use Rattle.std.specs.Prelude.{◌≡◌, ◌+◌, ◌≤◌, ◌++◌, length};
ghost use Rattle.buffers.specs.Written.{written_at};
ghost use Rattle.answers.specs.Answer.{refusal_text, answer_text};

use buffers::write_bytes;
use cue_texts::{cue_length, cue_line};
use cues::Cue;
use digits::digit_count;
use records::LineBuffer;
use refusals::Refusal;

// What is printed for a step. A refusal is one of the lines: as a `Result` it would be folded into one wherever answers
// are printed or listed, and the model's runs are lists of these.
#[derive(Clone, Copy, Debug, PartialEq, Eq)]
pub enum Answer {
    Ok,
    Yes,
    No,
    Empty,
    Cue(Cue),
    // How many undo entries are left.
    Left(usize),
    Refused(Refusal),
}

// The line `refused,n` with its LF. Refusal 8 has the transaction in the way as its third field.
#[tactic(auto, unfolding(crate::specs::Answer::refusal_text, records::specs::Record::record_text))]
fn push_refusal(line: &mut LineBuffer, refusal: Refusal)
    requires { length line.old + 50 ≤ 96 }
    ensures { line.new ≡ line.old ++ refusal_text refusal }
{
    line.push_bytes(b"refused,");
    if let Refusal::Blocked(e) = refusal {
        // Its number, by which the line tells that a third field stands behind.
        line.push_field(8, b',');
        // A `usize` has no `From` into `u64`.
        line.push_field(e as u64, b'\n');
    } else {
        line.push_field(refusal.number(), b'\n');
    }
}

// The line of an answer, with its LF.
pub fn answer_line(answer: Answer) -> LineBuffer
    ensures { result ≡ answer_text answer }
{
    let mut line = LineBuffer::new();
    match answer {
        Answer::Ok => line.push_bytes(b"ok\n"),
        Answer::Yes => line.push_bytes(b"yes\n"),
        Answer::No => line.push_bytes(b"no\n"),
        Answer::Empty => line.push_bytes(b"empty\n"),
        Answer::Cue(cue) => {
            line.push_bytes(b"cue,");
            line.push_bytes(cue_line(cue).as_bytes());
        }
        Answer::Left(n) => {
            line.push_bytes(b"left,");
            // A `usize` has no `From` into `u64`.
            line.push_field(n as u64, b'\n');
        }
        Answer::Refused(refusal) => push_refusal(&mut line, refusal),
    }
    line
}

// Writes the line of an answer, with its LF, at a place of the buffer, if it fits there: one call, as each line's
// writer.
pub fn write_answer(buf: &mut [u8], at: usize, answer: Answer) -> Result<usize, Refusal>
    ensures { (result, buf.new) ≡ written_at buf.old at (answer_text answer) }
{
    write_bytes(buf, at, answer_line(answer).as_bytes())
}

// How many bytes the line of a refusal has, with its LF.
#[tactic(auto, using(records::proofs::Laws::field_length), unfolding(crate::specs::Answer::refusal_text))]
fn refusal_length(refusal: Refusal) -> usize
    ensures { result ≡ length (refusal_text refusal) }
{
    if let Refusal::Blocked(e) = refusal {
        // A `usize` has no `From` into `u64`.
        return 11 + digit_count(e as u64);
    }
    9 + digit_count(refusal.number())
}

// How many bytes the line of an answer has, with its LF. They are counted, as those of a cue's line are (`cue_length`),
// and no line is composed for it.
#[tactic(auto, using(records::proofs::Laws::field_length))]
pub fn answer_length(answer: Answer) -> usize
    ensures { result ≡ length (answer_text answer) }
{
    match answer {
        Answer::Ok | Answer::No => 3,
        Answer::Yes => 4,
        Answer::Empty => 6,
        Answer::Cue(cue) => 4 + cue_length(cue),
        // A `usize` has no `From` into `u64`.
        Answer::Left(n) => 6 + digit_count(n as u64),
        Answer::Refused(refusal) => refusal_length(refusal),
    }
}
