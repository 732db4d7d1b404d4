// The ten words that step lines begin with, read.
//
// Any bytes at all will do. No public function has a `requires`, and the crate assumes nothing of its own.
#![tactic(auto)]

ghost use Rattle.std.specs.Prelude.{◌≡◌};
ghost use Rattle.step_words.specs.Word.{word_of};

// The words of lines `word,e`.
#[derive(Clone, Copy, Debug, PartialEq, Eq)]
pub enum NumberWord {
    Begin,
    Min,
    Take,
    Commit,
    Undo,
    Back,
}

// The words of lines `word,e,t,m,p`.
#[derive(Clone, Copy, Debug, PartialEq, Eq)]
pub enum CueWord {
    Add,
    Remove,
    Has,
    Push,
}

#[derive(Clone, Copy, Debug, PartialEq, Eq)]
pub enum Word {
    WithNumber(NumberWord),
    WithCue(CueWord),
}

// The word that the bytes are.
#[tactic(auto, unfolding(crate::specs::Word::word_of))]
pub fn read_word(bytes: &[u8]) -> Option<Word>
    ensures { result ≡ word_of bytes.now }
{
    match bytes {
        b"begin" => Some(Word::WithNumber(NumberWord::Begin)),
        b"add" => Some(Word::WithCue(CueWord::Add)),
        b"remove" => Some(Word::WithCue(CueWord::Remove)),
        b"has" => Some(Word::WithCue(CueWord::Has)),
        b"push" => Some(Word::WithCue(CueWord::Push)),
        b"min" => Some(Word::WithNumber(NumberWord::Min)),
        b"take" => Some(Word::WithNumber(NumberWord::Take)),
        b"commit" => Some(Word::WithNumber(NumberWord::Commit)),
        b"undo" => Some(Word::WithNumber(NumberWord::Undo)),
        b"back" => Some(Word::WithNumber(NumberWord::Back)),
        _ => None,
    }
}
