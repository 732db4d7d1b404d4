// The word of a step line, told at a glance: a guess from its first two bytes, then one comparison of up to seven. The
// guess is right for each of the ten words, so the word that stands is always found.
//
// Nothing branches on the word: which one comes next cannot be guessed, and a branch that is guessed wrong costs more
// than the look itself. So what is known of each word stands in a table, which a caller makes once. No public function
// has a `requires`, and the crate assumes nothing of its own.
//
// It stands beside `step_words` for speed: before the desk had its quick parts, the input that mostly waits took as
// long as the plain desk, and this one was worth a seventh there (docs/BENCHMARKS.md, "The desk"). Text and place are
// two parameters, as in `numbers`: one look at one place needs no cursor.
#![tactic(auto)]

ghost use Rattle.std.specs.Prelude.{◌≡◌, drop};
ghost use Rattle.quick_words.specs.Row.{table_rows, row_of, word_line};
ghost use Rattle.quick_words.specs.QuickWord.{word_found};

use eight_bytes::eight_bytes;
use step_words::{CueWord, NumberWord, Word};

// What is known of a word: the number of its bytes with its comma, the mask of as many bytes, and how many.
#[derive(Clone, Copy, Debug, PartialEq, Eq)]
pub struct Row {
    number: u64,
    mask: u64,
    length: usize,
    word: Word,
}

// A word that stands with its comma, and how many bytes both have.
#[derive(Clone, Copy, Debug, PartialEq, Eq)]
pub struct QuickWord {
    pub word: Word,
    pub length: usize,
}

// The row of a word, from its text with the comma.
fn known_word(text: &[u8], word: Word) -> Row
    requires { text.now ≡ word_line word }
    ensures { result ≡ row_of word }
{
    let mut bytes = [0; 8];
    bytes[..text.len()].copy_from_slice(text);
    Row {
        number: u64::from_le_bytes(bytes),
        mask: u64::MAX >> (64 - 8 * text.len()),
        length: text.len(),
        word,
    }
}

// A row for each of the sixteen slots. The ten words have ten slots, so a word that is not the one of its slot is none
// of them; six slots have a row twice.
#[derive(Drop)]
pub struct WordTable {
    rows: [Row; 16],
    ghost known: { rows ≡ table_rows },
}

impl WordTable {
    pub fn new() -> WordTable
        ensures { result.rows ≡ table_rows }
    {
        let add = known_word(b"add,", Word::WithCue(CueWord::Add));
        let remove = known_word(b"remove,", Word::WithCue(CueWord::Remove));
        let has = known_word(b"has,", Word::WithCue(CueWord::Has));
        let push = known_word(b"push,", Word::WithCue(CueWord::Push));
        let min = known_word(b"min,", Word::WithNumber(NumberWord::Min));
        let take = known_word(b"take,", Word::WithNumber(NumberWord::Take));
        let begin = known_word(b"begin,", Word::WithNumber(NumberWord::Begin));
        let commit = known_word(b"commit,", Word::WithNumber(NumberWord::Commit));
        let undo = known_word(b"undo,", Word::WithNumber(NumberWord::Undo));
        let back = known_word(b"back,", Word::WithNumber(NumberWord::Back));
        let rows = [
            commit, add, back, add, add, has, begin, add, undo, add, add, take, add, push, remove,
            min,
        ];
        WordTable { rows }
    }

    // The word that stands at a place with its comma; none where none of the ten does, or fewer than eight bytes.
    pub fn quick_word(&self, text: &[u8], at: usize) -> Option<QuickWord>
        ensures { result ≡ word_found (drop at text.now) }
    {
        let bytes = eight_bytes(text, at)?;
        // half the first byte and the second, of which only the low four bits count
        let slot = (bytes / 2 + bytes / 256) % 16;
        // `as`: a remainder below 16 has no `From` into `usize`, and `try_from` would be a branch that no text takes.
        let row = self.rows[slot as usize];
        if bytes & row.mask != row.number {
            return None;
        }
        Some(QuickWord {
            word: row.word,
            length: row.length,
        })
    }
}
