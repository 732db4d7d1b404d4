// One case: an input, the output that has to come, and the line that says whether it came.
ghost use Rattle.std.specs.Prelude.{◌≡◌, true, ◌≤◌, length, drop};
ghost use Rattle.session.specs.Output.{output_of};
ghost use Rattle.worked_examples.specs.Case.{behind_line, input_of, expected_of};

use lines::{LF, find_byte};
use session::run_session;
use std::io;

// Whether exactly the expected bytes are printed. There is room for the output of every case.
#[tactic(auto, unfolding(buffers::specs::Written::written_at))]
pub fn gives(input: &[u8], expected: &[u8]) -> bool
    ensures { result ≡ true → output_of input.now ≡ expected.now }
{
    let mut output = [0u8; 4096];
    let written = run_session(&mut output, input);
    let Ok(end) = written else {
        return false;
    };
    &output[..end] == expected
}

// In three parts, since names may be any bytes, which `println!` does not take.
fn write_line<R: Print>(rt: &R, word: &[u8], name: &[u8]) -> io::Result<()> {
    rt.write_all(word)?;
    rt.write_all(name)?;
    rt.write_all(b"\n")
}

// A line that cannot be written is passed over; what cannot be written at all ends the program at the closing line.
fn print_line<R: Print>(rt: &R, word: &[u8], name: &[u8]) {
    let _ = write_line(rt, word, name);
}

// Prints how a case came out, and answers whether it is right. The name has a space in front.
pub fn report<R: Print>(rt: &R, name: &[u8], right: bool) -> bool
    ensures { result ≡ right }
{
    if right {
        print_line(rt, b"ok   ", name);
    } else {
        print_line(rt, b"WRONG", name);
    }
    right
}

// The place behind the line that goes on at a place.
fn line_after(text: &[u8], at: usize) -> usize
    requires { at ≤ length text.now }
    ensures within { result ≤ length text.now }
    ensures behind { drop result text.now ≡ behind_line (drop at text.now) }
{
    match text[at..].iter().position(|byte| *byte == LF) {
        Some(i) => at + i + 1,
        None => text.len(),
    }
}

// Checks a case as it stands in the file `stdin`: behind `#` and a space the name, on the next lines the input up to
// `=`, and behind that line the output. Whether it is right.
pub fn check_case<R: Print>(rt: &R, case: &[u8]) -> bool
    ensures { result ≡ true → output_of (input_of case.now) ≡ expected_of case.now }
{
    let name = find_byte(case, 0, b' ');
    let name_end = find_byte(case, name, LF);
    let input = line_after(case, name_end);
    let input_end = find_byte(case, input, b'=');
    let output = line_after(case, input_end);
    let right = gives(&case[input..input_end], &case[output..]);
    report(rt, &case[name..name_end], right)
}
