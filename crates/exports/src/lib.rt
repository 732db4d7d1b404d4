// What tests and benchmarks call from Rust: numbers and bytes alone. `exports_c` gives these functions their C names:
// a C interface needs a static library, whose functions no other crate can call.
#![tactic(auto)]

ghost use Rattle.std.specs.Prelude.{◌≡◌};
ghost use Rattle.checksum.specs.Checksum.{checksum_from};
ghost use Rattle.formatting.specs.Format.{report_of};
ghost use Rattle.session.specs.Output.{output_of};
ghost use Rattle.exports.specs.Report.{answer_number, exported};

use checksum::checksum_from;
use formatting::write_report;
use refusals::Refusal;
use session::run_session;

fn answer_number(written: Result<usize, Refusal>) -> u64
    ensures { result ≡ answer_number written }
{
    match written {
        // A `usize` has no `From` into `u64`.
        Ok(end) => end as u64,
        Err(refusal) => 4294967296 + refusal.number(),
    }
}

// Writes what `cue_format` prints of a text to the front of the buffer, and answers how many bytes that is; a buffer
// that is too short stays as it was, and the answer is the refusal's number above 2^32.
pub fn lizkorpe_format(text: &[u8], buf: &mut [u8]) -> u64
    ensures { (result, buf.new) ≡ exported (report_of text.now) buf.old }
{
    answer_number(write_report(buf, text))
}

// Writes what `cue_desk` prints of an input to the front of the buffer, and answers as `lizkorpe_format` does. A
// buffer of 659,860 bytes is never too short.
pub fn lizkorpe_desk(input: &[u8], buf: &mut [u8]) -> u64
    ensures { (result, buf.new) ≡ exported (output_of input.now) buf.old }
{
    answer_number(run_session(buf, input))
}

// The checksum of a text, continued from an earlier one.
pub fn lizkorpe_checksum(before: u32, text: &[u8]) -> u32
    ensures { result ≡ checksum_from before text.now }
{
    checksum_from(before, text)
}
