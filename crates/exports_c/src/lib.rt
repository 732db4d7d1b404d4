// The functions of `exports` under C names, as a static library.
//
// A slice passes as a pointer and a length. Nothing checks a foreign declaration against this file, so
// the boundary is kept to numbers and bytes.
#![tactic(auto)]

ghost use Rattle.std.specs.Prelude.{◌≡◌};
ghost use Rattle.checksum.specs.Checksum.{checksum_from};
ghost use Rattle.formatting.specs.Format.{report_of};
ghost use Rattle.session.specs.Output.{output_of};
ghost use Rattle.exports.specs.Report.{exported};

// Writes what `cue_format` prints of a text to the front of the buffer, and answers how many bytes that is; a buffer
// that is too short stays as it was, and the answer is the refusal's number above 2^32.
#[unsafe(no_mangle)]
pub extern "C" fn lizkorpe_format(text: &[u8], buf: &mut [u8]) -> u64
    ensures { (result, buf.new) ≡ exported (report_of text.now) buf.old }
{
    exports::lizkorpe_format(text, buf)
}

// Writes what `cue_desk` prints of an input to the front of the buffer, and answers as `lizkorpe_format` does. A
// buffer of 659,860 bytes is never too short.
#[unsafe(no_mangle)]
pub extern "C" fn lizkorpe_desk(input: &[u8], buf: &mut [u8]) -> u64
    ensures { (result, buf.new) ≡ exported (output_of input.now) buf.old }
{
    exports::lizkorpe_desk(input, buf)
}

// The checksum of a text, continued from an earlier one.
#[unsafe(no_mangle)]
pub extern "C" fn lizkorpe_checksum(before: u32, text: &[u8]) -> u32
    ensures { result ≡ checksum_from before text.now }
{
    exports::lizkorpe_checksum(before, text)
}
