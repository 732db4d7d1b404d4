// The refusals: what a wrong line, a wrong text or too short a buffer is answered with.
//
// One enum for every row of the table "What is turned away", and one definition for the rows'
// numbers, so that each promise speaks of a refusal by its name and each output by its number.
#![tactic(auto)]

ghost use Rattle.std.specs.Prelude.{◌≡◌, ◌<◌};
ghost use Rattle.refusals.specs.Refusal.{refusal_number, length_checked};

use std::error::Error;
use std::fmt;

#[derive(Clone, Copy, Debug, PartialEq, Eq)]
pub enum Refusal {
    Malformed,
    TransactionOutOfRange,
    AlreadyBegun,
    NotBegun,
    Aborting,
    NotAborting,
    CueOutOfRange,
    // The lowest-numbered transaction in the way.
    Blocked(usize),
    LocksFull,
    UndoLogFull,
    ScriptFull,
    QueueFull,
    TextTooLong,
    BufferTooShort,
}

impl Refusal {
    // The row's number, as outputs print it: one or two digits.
    pub fn number(self) -> u64
        ensures is_the_row { result ≡ refusal_number self }
        ensures two_digits { result < 100 }
    {
        match self {
            Refusal::Malformed => 1,
            Refusal::TransactionOutOfRange => 2,
            Refusal::AlreadyBegun => 3,
            Refusal::NotBegun => 4,
            Refusal::Aborting => 5,
            Refusal::NotAborting => 6,
            Refusal::CueOutOfRange => 7,
            Refusal::Blocked(_) => 8,
            Refusal::LocksFull => 9,
            Refusal::UndoLogFull => 10,
            Refusal::ScriptFull => 11,
            Refusal::QueueFull => 12,
            Refusal::TextTooLong => 13,
            Refusal::BufferTooShort => 14,
        }
    }
}

impl fmt::Display for Refusal {
    ghost use Rattle.std.specs.Prelude.{Some};
    ghost use Rattle.refusals.specs.Message.{refusal_message};

    ghost output = { λ refusal. Some (refusal_message refusal) };

    fn fmt<W: fmt::Write>(&self, f: &mut fmt::Formatter<W>) -> fmt::Result {
        match self {
            Refusal::Malformed => write!(f, "malformed line or unknown word"),
            Refusal::TransactionOutOfRange => write!(f, "edit number not 1 to 8"),
            Refusal::AlreadyBegun => write!(f, "the edit has begun already"),
            Refusal::NotBegun => write!(f, "the edit has not begun"),
            Refusal::Aborting => write!(f, "the edit is being undone"),
            Refusal::NotAborting => write!(f, "the edit is not being undone"),
            Refusal::CueOutOfRange => write!(f, "cue number out of range"),
            Refusal::Blocked(holder) => write!(f, "edit {holder} holds a lock in the way"),
            Refusal::LocksFull => write!(f, "the edit has 24 cue locks already"),
            Refusal::UndoLogFull => write!(f, "the edit has 16 log entries already"),
            Refusal::ScriptFull => write!(f, "all 256 places of the script are taken"),
            Refusal::QueueFull => write!(f, "all 64 places of the queue are taken"),
            Refusal::TextTooLong => write!(f, "more than 65,536 bytes"),
            Refusal::BufferTooShort => write!(f, "the buffer is too short"),
        }
    }
}

impl Error for Refusal {}

// Why a text is refused: the first row that one of its lines meets, and the number of that line, from 1; line 0 where
// no line is to blame, which is what is printed then.
#[derive(Clone, Copy, Debug, PartialEq, Eq)]
pub struct RefusedText {
    pub refusal: Refusal,
    pub line: usize,
}

impl fmt::Display for RefusedText {
    ghost use Rattle.std.specs.Prelude.{Some};
    ghost use Rattle.refusals.specs.Message.{refused_message};

    ghost output = { λ refused. Some (refused_message refused) };

    fn fmt<W: fmt::Write>(&self, f: &mut fmt::Formatter<W>) -> fmt::Result {
        let refusal = self.refusal;
        let line = self.line;
        if line == 0 {
            return write!(f, "{refusal}");
        }
        write!(f, "line {line}: {refusal}")
    }
}

impl Error for RefusedText {}

// The most bytes that a script text or the program's input may have.
const LIMIT: usize = 65536;

// Row 13: a longer text is refused before any of its lines is looked at.
pub fn check_length(text: &[u8]) -> Result<(), RefusedText>
    ensures { result ≡ length_checked text.now }
{
    if LIMIT < text.len() {
        return Err(RefusedText {
            refusal: Refusal::TextTooLong,
            line: 0,
        });
    }
    Ok(())
}
