// Fields and records of output lines: a number with the byte behind it, and lines `word,first,second`.
//
// A line is composed in a `LineBuffer` and written into a lent buffer all or not at all. No function that writes has a
// `requires`.
#![tactic(auto)]

mod line_buffer; // line_buffer.rt: a short line on the stack

ghost use Rattle.std.specs.Prelude.{◌≡◌, ◌∷◌, ◌++◌};
ghost use Rattle.buffers.specs.Written.{written_at};
ghost use Rattle.records.specs.Record.{field_text, record_text};

use buffers::{write_both, write_bytes};
pub use line_buffer::LineBuffer;
use refusals::Refusal;

// The digits of n and a byte behind them.
pub fn field_line(n: u64, behind: u8) -> LineBuffer
    ensures { result ≡ field_text n behind }
{
    let mut line = LineBuffer::new();
    line.push_field(n, behind);
    line
}

// Writes the digits of n and a byte behind them at a place of the buffer, if they fit there. This, `write_record` and
// the writers of lines in the crates above are one call each, which a common one would not shorten.
pub fn write_field(buf: &mut [u8], at: usize, n: u64, behind: u8) -> Result<usize, Refusal>
    ensures { (result, buf.new) ≡ written_at buf.old at (field_text n behind) }
{
    write_bytes(buf, at, field_line(n, behind).as_bytes())
}

// What stands behind the word: `,first,second` and LF.
fn fields_line(first: u64, second: u64) -> LineBuffer
    ensures { result ≡ 44 ∷ (field_text first 44 ++ field_text second 10) }
{
    let mut line = LineBuffer::new();
    line.push(b',');
    line.push_field(first, b',');
    line.push_field(second, b'\n');
    line
}

// Writes the line `word,first,second` with its LF at a place of the buffer, if it fits there.
#[tactic(auto, unfolding(crate::specs::Record::record_text))]
pub fn write_record(
    buf: &mut [u8],
    at: usize,
    word: &[u8],
    first: u64,
    second: u64,
) -> Result<usize, Refusal>
    ensures { (result, buf.new) ≡ written_at buf.old at (record_text word.now first second) }
{
    write_both(buf, at, word, fields_line(first, second).as_bytes())
}
