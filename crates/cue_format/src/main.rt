// Formats a script: reads a script text from standard input and prints its normal form, or the one line
// `refused,n,line` that says which row the text meets and where.
//
// One byte more than a script text may have is read, so that a longer input is told apart. The report
// never needs more than 3,584 bytes. `cue_desk` is alike: what they share are the library's
// reader and writer, and a common function would be no shorter.
#![tactic(auto)]

use formatting::write_report;
use std::io::{self, Read, Write};

#[tactic(auto, unfolding(buffers::specs::Written::written_at))]
fn main(rt: HostRuntime) -> io::Result<()> {
    let mut input = Vec::new(rt.alloc());
    rt.reader().take(65537).read_to_end(&mut input)?;
    let mut output = [0u8; 3584];
    let written = write_report(&mut output, &input);
    if let Ok(end) = written {
        io::writer(&rt).write_all(&output[..end])?;
    }
    Ok(())
}
