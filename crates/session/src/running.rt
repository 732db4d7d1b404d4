// A whole session: the store started, stepped and recovered, and what it prints.
ghost use Rattle.std.specs.Prelude.{◌≡◌, true, ◌≤◌, length};
ghost use Rattle.buffers.specs.Written.{written_at};
ghost use Rattle.lines.specs.Lines.{lines_of};
ghost use Rattle.session.specs.Output.{run_text, output_of};
ghost use Rattle.session.specs.Printing.{HasRoom, HoldsOneLine, Printed};

use crate::answering::answer_lines;
use crate::printing::{put_closing, put_refused};
use crate::starting::start_session;
use refusals::Refusal;
use store::Store;

// As many bytes hold the output of every input.
pub const ROOM: usize = 659860;

// As many bytes hold the line of every answer.
const LONGEST_LINE: usize = 72;

// Steps through the lines and recovers: the place behind the answers and the closing lists.
fn run_steps(buf: &mut [u8], keep: bool, store: &mut Store, text: &[u8]) -> usize
    requires room { HasRoom keep buf.old 0 (run_text store.old (lines_of text.now)) }
    requires counted { HoldsOneLine keep buf.old }
    ensures printed { Printed keep buf.old 0 (run_text store.old (lines_of text.now)) result buf.new }
    ensures long { length buf.new ≡ length buf.old }
{
    let end = answer_lines(buf, keep, store, text);
    store.recover();
    put_closing(buf, keep, end, store.object())
}

// Runs the session of an input, and puts what it prints at the front of the buffer, where it is kept: how many bytes
// all of it has. One function for both, so that the engine is compiled once.
#[inline(never)]
fn play(buf: &mut [u8], keep: bool, input: &[u8]) -> usize
    requires kept { keep ≡ true → length (output_of input.now) ≤ length buf.old }
    requires counted { HoldsOneLine keep buf.old }
    ensures printed { Printed keep buf.old 0 (output_of input.now) result buf.new }
    ensures long { length buf.new ≡ length buf.old }
{
    let mut store = Store::new();
    match start_session(&mut store, input) {
        Ok(from) => run_steps(buf, keep, &mut store, &input[from..]),
        Err(refused) => put_refused(buf, keep, refused),
    }
}

// How many bytes the output of an input has: the session is run, and nothing is written.
pub fn session_length(input: &[u8]) -> usize
    ensures { result ≡ length (output_of input.now) }
{
    play(&mut [0; LONGEST_LINE], false, input)
}

// Writes what the program prints for an input to the front of the buffer, if it fits there. A buffer of `ROOM` bytes
// holds every output; a shorter one costs a second run of the session, which counts the bytes.
#[tactic(auto, using(buffers::proofs::Laws::too_short, crate::proofs::Fitting::output_fits))]
pub fn run_session(buf: &mut [u8], input: &[u8]) -> Result<usize, Refusal>
    ensures { (result, buf.new) ≡ written_at buf.old 0 (output_of input.now) }
{
    if buf.len() < ROOM && buf.len() < session_length(input) {
        return Err(Refusal::BufferTooShort);
    }
    Ok(play(buf, true, input))
}
