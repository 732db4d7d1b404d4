// The worked steps of the rules (docs/RULES.md, 12) through the running code: those marked †, which `worked_runs` also
// proves of the model, the others, the small example of each row of the table of refusals, the printed run and the
// wrong desks.
//
// All but two are plain text, in the file `stdin` beside this folder. Prints a line for each, `ok` or `WRONG` with its
// name, then how many are right; and says so where the number of cases is not the expected one.
#![tactic(auto)]

mod cases;
mod listed;
mod made;

use std::io::{self, Read};

// How many cases the file has; with the two of `made` there are 38.
const LISTED: u64 = 36;

// The closing line. Without all the cases it does not say that all is well.
fn print_total<R: Print>(rt: &R, right: u64, listed: u64) -> io::Result<()> {
    if listed == LISTED {
        println!(rt; "{right} of 38 right")
    } else {
        println!(rt; "{right} right, WRONG: not 38 cases")
    }
}

// All the cases together are no longer than an input may be.
fn main(rt: HostRuntime) -> io::Result<()> {
    let mut text = Vec::new(rt.alloc());
    rt.reader().take(65536).read_to_end(&mut text)?;
    let listed = listed::check_cases(&rt, &text);
    let made = u64::from(made::of_texts(&rt)) + u64::from(made::of_buffers(&rt));
    let right = listed.right + made;
    print_total(&rt, right, listed.met)
}
