// Lines of a word and one number, and the line of the word `cue` and a cue, written.
//
// A line is written whole, with its LF, or not at all, by one call each, which a common writer would not shorten. No
// public function has a `requires`.
#![tactic(auto)]

ghost use Rattle.std.specs.Prelude.{◌≡◌, ◌++◌};
ghost use Rattle.buffers.specs.Written.{written_at};
ghost use Rattle.cue_texts.specs.CueText.{cue_text};
ghost use Rattle.lines.specs.Ascii.{bytes};
ghost use Rattle.records.specs.Record.{field_text};

use buffers::write_both;
use cue_texts::cue_line;
use cues::Cue;
use records::field_line;
use refusals::Refusal;

// Writes a word and a number with its LF at a place of the buffer, if they fit there. The word ends with its comma.
pub fn write_number_line(buf: &mut [u8], at: usize, word: &[u8], n: u64) -> Result<usize, Refusal>
    ensures { (result, buf.new) ≡ written_at buf.old at (word.now ++ field_text n 10) }
{
    write_both(buf, at, word, field_line(n, b'\n').as_bytes())
}

// Writes the line `cue,t,m,p` with its LF, if it fits.
pub fn write_cue_line(buf: &mut [u8], at: usize, cue: Cue) -> Result<usize, Refusal>
    ensures { (result, buf.new) ≡ written_at buf.old at (bytes "cue," ++ cue_text cue) }
{
    write_both(buf, at, b"cue,", cue_line(cue).as_bytes())
}
