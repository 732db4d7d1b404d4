// Script texts, formatted: read, and written again as their normal form; or what the formatter prints of them.
//
// The normal form is that of `script_texts`. It is written whole or not at all, and bytes beside it stay. No public
// function has a `requires`.
#![tactic(auto)]

ghost use Rattle.std.specs.Prelude.{◌≡◌};
ghost use Rattle.buffers.specs.Written.{written_at};
ghost use Rattle.formatting.specs.Format.{format_of, report_of};

use records::write_record;
use refusals::{Refusal, RefusedText};
use script_texts::write_script;
use scripts::read_script;

// Reads a script text and writes its normal form to the front of the buffer: how many bytes it has; or the row that
// the text meets, with the line; or 14 with line 0, where the buffer is too short.
#[tactic(auto, unfolding(crate::specs::Format::format_of))]
pub fn format_script(buf: &mut [u8], text: &[u8]) -> Result<usize, RefusedText>
    ensures { (result, buf.new) ≡ format_of text.now buf.old }
{
    let script = read_script(text)?;
    write_script(buf, script).map_err(|refusal| RefusedText { refusal, line: 0 })
}

// Writes what the formatter prints of a text: its normal form, or the line `refused,n,line`.
#[tactic(auto, unfolding(crate::specs::Format::report_of))]
pub fn write_report(buf: &mut [u8], text: &[u8]) -> Result<usize, Refusal>
    ensures { (result, buf.new) ≡ written_at buf.old 0 (report_of text.now) }
{
    match read_script(text) {
        Ok(script) => write_script(buf, script),
        Err(refused) => write_record(
            buf,
            0,
            b"refused",
            refused.refusal.number(),
            // `as`: u64 has no `From<usize>`
            refused.line as u64,
        ),
    }
}
