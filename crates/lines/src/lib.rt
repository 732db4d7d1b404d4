// Lines of a text, at every length. A line ends with one LF, which is not part of it; the last LF may be missing, and
// a closing LF adds no empty line.
//
// Here a place in the text is a plain number: a rule of the project wants a function on slice and number under the line
// reader. `line_reader` keeps the text and its place in one record, and `numbered_lines` finds a line of two texts by
// its number. No public function has a `requires`, and the crate assumes nothing of its own.
#![tactic(auto)]

ghost use Rattle.std.specs.Prelude.{◌≡◌, ◌+◌, ◌≤◌, max, length, drop, MatchOption};
ghost use Rattle.lines.specs.Lines.{up_to};
ghost use Rattle.lines.specs.Line.{FirstLine, NoLine, line_at};

// What ends a line.
pub const LF: u8 = b'\n';

// What divides the fields of a line.
pub const COMMA: u8 = b',';

// A line from start to end, where its LF is or the text ends; next is the place behind that.
#[derive(Clone, Copy, Debug, PartialEq, Eq)]
pub struct Line {
    pub start: usize,
    pub end: usize,
    pub next: usize,
}

// The place of the first sep at or after a place; the text's length where there is none, and the place itself where
// it is past the end. The second clause is the bound that a caller's index needs. No `Option`: callers cut there. By
// its index, since `position` on the rest of the slice would need a place within it, and its answer added to that.
pub fn find_byte(s: &[u8], at: usize, sep: u8) -> usize
    ensures { (result ≡ at + up_to sep (drop at s.now)) × (result ≤ max at (length s.now)) }
{
    for i in at..s.len() {
        if s[i] == sep {
            return i;
        }
    }
    at.max(s.len())
}

// The line that starts at a place of the text; none at or past its end.
#[tactic(auto, using(crate::proofs::Laws::line_rules))]
pub fn next_line(text: &[u8], at: usize) -> Option<Line>
    ensures is_line { result ≡ line_at text.now at }
    ensures found { MatchOption result (NoLine text.now at) (λ line. FirstLine text.now at line) }
{
    if at >= text.len() {
        return None;
    }
    let end = find_byte(text, at, LF);
    Some(Line {
        start: at,
        end,
        next: end + 1,
    })
}
