// The cases that are no plain text: an input that is too long, and a buffer that is too short.
ghost use Rattle.std.specs.Prelude.{◌≡◌, true};
ghost use Rattle.lines.specs.Ascii.{bytes};
ghost use Rattle.formatting.specs.Format.{format_of};
ghost use Rattle.session.specs.Output.{output_of};
ghost use Rattle.worked_examples.specs.Made.{too_long, IsTooShort};

use crate::cases::{gives, report};
use formatting::format_script;
use refusals::Refusal;

// An input of one byte more than an input may have.
pub fn of_texts<R: Print>(rt: &R) -> bool
    ensures { result ≡ true → output_of too_long ≡ bytes "start,13,0\n" }
{
    let too_long = [b'x'; 65537];
    let right = gives(&too_long, b"start,13,0\n");
    report(rt, b" 13: 65,537 bytes of any kind", right)
}

// A room of 5 for `0,1,1` and LF: the script text is not written, and the buffer stays.
pub fn of_buffers<R: Print>(rt: &R) -> bool
    ensures { result ≡ true → IsTooShort (bytes "-----") (format_of (bytes "0,1,1") (bytes "-----")) }
{
    let mut buf = [b'-'; 5];
    let formatted = format_script(&mut buf, b"0,1,1");
    let too_short = formatted.map_err(|refused| refused.refusal) == Err(Refusal::BufferTooShort);
    let right = too_short && buf == *b"-----";
    report(rt, b" 14: room of 5 for 6 bytes", right)
}
