// Answers to steps, appended quickly: most have a short line.
//
// Where twelve bytes fit, as the longest short line has, its bytes are stored straight: no more tests of the room, and
// no digits counted. The compiler makes one store of the bytes of each `put_bytes`. Any other line is left to
// `answers`, which could write all of them: tried, and steps that mostly wait took a quarter longer, which misses the
// desk's bar. Only a place is answered, which stays in a register. The public function has no `requires`; that twelve
// bytes fit stands in those of private ones, each of which would take a type of buffer and place apart again.
#![tactic(auto)]

ghost use Rattle.std.specs.Prelude.{◌≡◌, ◌∷◌, ◌++◌, ◌+◌, ◌≤◌, ◌<◌, length};
ghost use Rattle.buffers.specs.Written.{placed};
ghost use Rattle.records.specs.Record.{field_text, record_text};
ghost use Rattle.lines.specs.Ascii.{bytes};
ghost use Rattle.answers.specs.Answer.{row_text, refusal_text, answer_text};
ghost use Rattle.short_answers.specs.Appended.{appended_at};

use answers::{Answer, write_answer};
use buffers::fits;
use refusals::Refusal;
use word_lines::{write_cue_line, write_number_line};

// Bytes at a place where they fit.
fn put_bytes<const N: usize>(buf: &mut [u8], at: usize, bytes: &[u8; N])
    requires { at + N ≤ length buf.old }
    ensures { buf.new ≡ placed buf.old at bytes.now }
{
    buf[at..at + N].copy_from_slice(bytes);
}

// The digit of n and the LF that end a line, at a place where they fit.
#[tactic(auto, using(crate::proofs::ShortLines::end_stored))]
fn put_last_digit(buf: &mut [u8], at: usize, n: u64)
    requires has_room { at + 2 ≤ length buf.old }
    requires one_digit { n < 10 }
    ensures { buf.new ≡ placed buf.old at (field_text n 10) }
{
    // `u8::try_from` would have an error to handle, which a number below 10 has not. Two stores: a short array of them
    // would be read back before it is stored.
    buf[at] = b'0' + n as u8;
    buf[at + 1] = b'\n';
}

// Appends a word, which ends with its comma, and a number with its LF where twelve bytes fit.
fn append_number<const N: usize>(buf: &mut [u8], at: usize, word: &[u8; N], n: u64) -> usize
    requires has_room { at + 12 ≤ length buf.old }
    requires short { N ≤ 10 }
    ensures { (result, buf.new) ≡ appended_at buf.old at (word.now ++ field_text n 10) }
{
    if n < 10 {
        put_bytes(buf, at, word);
        put_last_digit(buf, at + N, n);
        return at + N + 2;
    }
    write_number_line(buf, at, word, n).unwrap_or(at)
}

// Appends the line of a refusal with its LF where twelve bytes fit.
#[tactic(auto, using(crate::proofs::ShortLines::blocked_line), unfolding(answers::specs::Answer::refusal_text))]
fn append_refusal(buf: &mut [u8], at: usize, refusal: Refusal) -> usize
    requires { at + 12 ≤ length buf.old }
    ensures { (result, buf.new) ≡ appended_at buf.old at (refusal_text refusal) }
{
    if let Refusal::Blocked(e) = refusal {
        // A `usize` has no `From` into `u64`.
        return append_number(buf, at, b"refused,8,", e as u64);
    }
    append_number(buf, at, b"refused,", refusal.number())
}

// Appends the line of an answer with its LF where twelve bytes fit.
#[tactic(auto, unfolding(buffers::specs::Written::written_at))]
fn append_in_room(buf: &mut [u8], at: usize, answer: Answer) -> usize
    requires { at + 12 ≤ length buf.old }
    ensures { (result, buf.new) ≡ appended_at buf.old at (answer_text answer) }
{
    match answer {
        Answer::Ok => {
            put_bytes(buf, at, b"ok\n");
            at + 3
        }
        Answer::Yes => {
            put_bytes(buf, at, b"yes\n");
            at + 4
        }
        Answer::No => {
            put_bytes(buf, at, b"no\n");
            at + 3
        }
        Answer::Empty => {
            put_bytes(buf, at, b"empty\n");
            at + 6
        }
        Answer::Cue(cue) => write_cue_line(buf, at, cue).unwrap_or(at),
        // A `usize` has no `From` into `u64`.
        Answer::Left(n) => append_number(buf, at, b"left,", n as u64),
        Answer::Refused(refusal) => append_refusal(buf, at, refusal),
    }
}

// Appends the line of an answer, with its LF, at a place of the buffer, if it fits there; answers the place behind it,
// or the same place.
pub fn append_answer(buf: &mut [u8], at: usize, answer: Answer) -> usize
    ensures { (result, buf.new) ≡ appended_at buf.old at (answer_text answer) }
{
    if fits(buf.len(), at, 12) {
        return append_in_room(buf, at, answer);
    }
    write_answer(buf, at, answer).unwrap_or(at)
}
