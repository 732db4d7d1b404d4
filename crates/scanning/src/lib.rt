// Steps of a step list, read where they stand: the step of the line that starts at a place of a text, and where that
// line ends.
//
// Most lines have a plain form, which `quick` reads in one pass, without looking for their end first. Any other line is
// found first and then read. Any text and any place will do; a caller makes the table of words once.
//
// It stands beside `steps`, which reads a line whose end is known: before the desk had its quick parts, of which this
// is one, the input that mostly waits took as long as the plain desk (docs/BENCHMARKS.md, "The desk"). Text and place
// are two parameters, as in `numbers`.
#![tactic(auto)]

mod quick;
mod reader;

ghost use Rattle.scanning.specs.Scan.{Scans};

use lines::{LF, find_byte};
use quick::quick_step;
use quick_words::WordTable;
pub use reader::StepReader;
use steps::{Step, read_step};

// The step of a line, if it is one, and the place where the line ends: at its LF, or at the end of the text.
#[derive(Clone, Copy, Debug, PartialEq, Eq)]
pub struct Scanned {
    pub step: Option<Step>,
    pub end: usize,
}

// The line is found first, and then read.
fn scan_line(text: &[u8], at: usize) -> Scanned
    ensures { Scans text.now at result }
{
    if text.len() <= at {
        return Scanned {
            step: None,
            end: at,
        };
    }
    let end = find_byte(text, at, LF);
    Scanned {
        step: read_step(&text[at..end]),
        end,
    }
}

// The step of the line that starts at a place of the text.
pub fn scan_step(words: &WordTable, text: &[u8], at: usize) -> Scanned
    ensures { Scans text.now at result }
{
    match quick_step(words, text, at) {
        Some(scanned) => scanned,
        None => scan_line(text, at),
    }
}
