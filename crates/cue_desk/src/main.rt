// The shared cue desk: reads a start script, a line `steps` and a step list from standard input, and prints an answer
// line for each step, then the script and the queue after recovery; or the one line `start,n,line` of a refused start.
//
// One byte more than an input may have is read, so that a longer input is told apart. The output always fits.
// The programs are alike in how they read and write, by the library's reader and writer (why: `cue_format`).
#![tactic(auto)]

use session::{ROOM, run_session};
use std::io::{self, Read, Write};

// Apart from `main`, so that the bytes of a buffer of that length stay out of its proof.
#[tactic(auto, unfolding(buffers::specs::Written::written_at))]
fn run<R: Input + Print + AllocGlobal>(rt: &R, output: &mut [u8]) -> io::Result<()> {
    let mut input = Vec::new(rt.alloc());
    rt.reader().take(65537).read_to_end(&mut input)?;
    let written = run_session(output, &input);
    if let Ok(end) = written {
        io::writer(rt).write_all(&output[..end])?;
    }
    Ok(())
}

fn main(rt: HostRuntime) -> io::Result<()> {
    let mut output = vec![in rt.alloc(); 0u8; ROOM]?;
    run(&rt, &mut output)
}
