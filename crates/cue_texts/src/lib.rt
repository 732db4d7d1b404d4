// The text of a cue: its line `time,module,pin` with its LF, counted and written.
//
// What a cue is, and its ranges, is in `cues`; what a line stands for is in `cue_lines`. No public function has a
// `requires`.
#![tactic(auto)]

ghost use Rattle.std.specs.Prelude.{◌≡◌, ◌≤◌, length};
ghost use Rattle.buffers.specs.Written.{written_at};
ghost use Rattle.cue_texts.specs.CueText.{cue_text};

use buffers::write_bytes;
use cues::Cue;
use digits::digit_count;
use records::LineBuffer;
use refusals::Refusal;

// How many bytes the line of a cue has, with its LF. It stands beside `cue_line` because a text is written whole or not
// at all: its cues are counted first, and counting composes no line. Tried as the length of `cue_line`: a script is
// written a quarter slower, and the desk takes 0.51 where most steps wait and its bar is 0.5.
#[tactic(auto, using(crate::proofs::Laws::text_counted))]
pub fn cue_length(cue: Cue) -> usize
    ensures counted { result ≡ length (cue_text cue) }
    ensures short { result ≤ 63 }
{
    digit_count(u64::from(cue.time))
        + digit_count(u64::from(cue.module))
        + digit_count(u64::from(cue.pin))
        + 3
}

// The line of a cue, with its LF.
#[tactic(auto, unfolding(crate::specs::CueText::cue_text))]
pub fn cue_line(cue: Cue) -> LineBuffer
    ensures text { result ≡ cue_text cue }
    ensures short { length result ≤ 63 }
{
    let mut line = LineBuffer::new();
    line.push_field(u64::from(cue.time), b',');
    line.push_field(u64::from(cue.module), b',');
    line.push_field(u64::from(cue.pin), b'\n');
    line
}

// Writes the line of a cue, with its LF, at a place of the buffer, if it fits there. Each kind of line has such a
// writer, one call long: a common one would be no shorter.
pub fn write_cue(buf: &mut [u8], at: usize, cue: Cue) -> Result<usize, Refusal>
    ensures { (result, buf.new) ≡ written_at buf.old at (cue_text cue) }
{
    write_bytes(buf, at, cue_line(cue).as_bytes())
}
