// Stamps a text: reads all of standard input, of any length, and prints its checksum and LF.
//
// The input is read in pieces; the checksum of a text does not depend on how it is cut.
#![tactic(auto)]

use checksum::checksum_from;
use records::write_field;
use std::io::{self, Read, Write};

// A proved loop has to end, and nothing says that the input does. So the loop counts its turns, up to a number that
// no run reaches.
fn stamp_input<R: Input + AllocGlobal>(rt: &R) -> io::Result<u32> {
    let mut reader = rt.reader();
    let mut piece = Vec::new(rt.alloc());
    let mut sum: u32 = 0;
    for _ in 0..u64::MAX {
        piece.clear();
        let count = reader.by_ref().take(65536).read_to_end(&mut piece)?;
        if count == 0 {
            break;
        }
        sum = checksum_from(sum, &piece);
    }
    Ok(sum)
}

#[tactic(auto, unfolding(buffers::specs::Written::written_at))]
fn main(rt: HostRuntime) -> io::Result<()> {
    let sum = stamp_input(&rt)?;
    let mut output = [0u8; 16];
    // Sixteen bytes are enough for every stamp, so nothing is refused. The programs end alike (why: `cue_format`).
    let written = write_field(&mut output, 0, u64::from(sum), b'\n');
    if let Ok(end) = written {
        io::writer(&rt).write_all(&output[..end])?;
    }
    Ok(())
}
