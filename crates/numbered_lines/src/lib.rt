// The numbered line of two lent texts: a start script and a step list.
//
// Lines are counted as `lines` divides a text. The public function has no `requires`, and the crate assumes nothing of
// its own.
#![tactic(auto)]

ghost use Rattle.std.specs.Prelude.{◌≡◌};
ghost use Rattle.lines.specs.Lines.{lines_of};
ghost use Rattle.numbered_lines.specs.Numbered.{seek, Within, numbered};

use line_reader::LineReader;
use lines::Line;

// The line k of one text, counted from 0; or, where the text has too few lines, how many are left to count.
#[tactic(auto, using(crate::proofs::Seek::seek_rules))]
fn seek_line(text: &[u8], k: usize) -> Result<Line, usize>
    ensures is_the_line { result ≡ seek 0 (lines_of text.now) k }
    ensures within { Within text.now result }
{
    // Counted down by hand: what is left to count is the answer where the lines end.
    let mut left = k;
    for line in LineReader::new(text).places() {
        if left == 0 {
            return Ok(line);
        }
        left -= 1;
    }
    Err(left)
}

// The line of that number, counted from 1 through the start script and on through the step list, without its LF: that
// very stretch of whichever text holds it. For 0 or past the end it is the empty stretch at the end of the step list.
pub fn numbered_line<'a>(start: &'a [u8], steps: &'a [u8], number: usize) -> &'a [u8]
    ensures { (result.ref_ptr, result.now) ≡ numbered start.entry steps.entry number }
{
    if number == 0 {
        return &steps[steps.len()..];
    }
    match seek_line(start, number - 1) {
        Ok(line) => &start[line.start..line.end],
        Err(left) => match seek_line(steps, left) {
            Ok(line) => &steps[line.start..line.end],
            Err(_) => &steps[steps.len()..],
        },
    }
}
