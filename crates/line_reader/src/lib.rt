// The line reader: a lent text and the reader's own place in one record.
//
// The work is done by `lines::next_line` on a text and a number; the methods over the record are thin. A caller that
// does not want the record uses `first_line` and `lines::next_line`. No public function has a `requires`, and the
// crate assumes nothing of its own.
#![tactic(auto)]

ghost use Rattle.std.specs.Prelude.{◌≡◌, ◌≤◌, MatchOption, length};
ghost use Rattle.std.specs.Iterator.{YieldsFirstRef, item_count};
ghost use Rattle.lines.specs.Line.{line_at};
ghost use Rattle.lines.specs.Lines.{lines_of};

use lines::{Line, next_line};

#[derive(Drop)]
pub struct LineReader<'a> {
    pub text: &'a [u8],
    pub at: usize,
}

// The lines from a reader's place on, each as its place in the text and not as its bytes.
#[derive(Drop)]
pub struct LinePlaces<'a> {
    reader: LineReader<'a>,
}

impl<'a> LineReader<'a> {
    ghost use Rattle.line_reader.specs.Reader.{lines_left, Taken, TookLine, TookNone};

    // A reader at the start of the text, which has no more lines than bytes.
    #[tactic(auto, using(crate::proofs::Left::lines_at_most))]
    pub fn new(text: &'a [u8]) -> LineReader<'a>
        ensures same_text { result.text ≡ text.entry }
        ensures at_start { result.at ≡ 0 }
        ensures every_line { lines_left result ≡ lines_of text.now }
        ensures few { length (lines_left result) ≤ length text.now }
    {
        LineReader { text, at: 0 }
    }

    // Where the line at the reader's place lies; and the place moves on behind it. At or past the end there is no line,
    // and the place stays.
    #[tactic(auto, using(crate::proofs::Left::took))]
    pub fn take_line(&mut self) -> Option<Line>
        ensures taken { Taken self.old self.new result }
        ensures found { MatchOption result (TookNone self.old self.new) (λ line. TookLine self.old self.new line) }
    {
        let line = next_line(self.text, self.at)?;
        self.at = line.next;
        Some(line)
    }

    // The line at the reader's place, as that very stretch of the text; and the place moves on behind it.
    pub fn next_line(&mut self) -> Option<&'a [u8]>
        ensures same_text { self.new.text ≡ self.old.text }
        ensures is_first { YieldsFirstRef lines_left self.old result self.new }
    {
        let line = self.take_line()?;
        Some(&self.text[line.start..line.end])
    }

    // An iterator of the lines that are left, each as its place in the text.
    pub fn places(self) -> LinePlaces<'a>
        ensures { result.reader ≡ self.entry }
    {
        LinePlaces { reader: self }
    }
}

impl<'a> Iterator for LineReader<'a> {
    ghost use Rattle.line_reader.specs.Reader.{lines_left};

    type Item = &'a [u8];

    ghost next_gives = { YieldsFirstRef lines_left };

    ghost remaining = { item_count lines_left };

    fn next(&mut self) -> Option<&'a [u8]> {
        self.next_line()
    }
}

impl<'a> Iterator for LinePlaces<'a> {
    ghost use Rattle.line_reader.specs.Reader.{lines_left};
    ghost use Rattle.line_reader.specs.Places.{TookPlace};

    type Item = Line;

    ghost next_gives = { TookPlace };

    ghost remaining = { λ places. item_count lines_left places.reader };

    fn next(&mut self) -> Option<Line> {
        self.reader.take_line()
    }
}

// The first line of a text.
pub fn first_line(text: &[u8]) -> Option<Line>
    ensures { result ≡ line_at text.now 0 }
{
    LineReader::new(text).take_line()
}
