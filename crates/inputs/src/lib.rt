// The program's input, divided at its first line `steps`: the start script before it, the step list behind it.
//
// Both parts are read where they stand, so a division is two places of the input. No public function has a `requires`.
#![tactic(auto)]

ghost use Rattle.std.specs.Prelude.{◌≡◌, ◌+◌, min, length};
ghost use Rattle.lines.specs.Lines.{lines_of};
ghost use Rattle.inputs.specs.Division.{steps_place};

use buffers::fits;
use line_reader::LineReader;

// The line that divides an input.
const STEPS: &[u8] = b"steps";

// Where the first line `steps` begins; the end of the input where there is none, since it is cut there.
#[tactic(auto, using(crate::proofs::Division::search_rules))]
pub fn find_steps(input: &[u8]) -> usize
    ensures { result ≡ min (steps_place (lines_of input.now)) (length input.now) }
{
    for line in LineReader::new(input).places() {
        if &input[line.start..line.end] == STEPS {
            return line.start;
        }
    }
    input.len()
}

// Where the step list begins: behind the 6 bytes of the line `steps` and its LF, or at the end of the input.
pub fn steps_from(input: &[u8], at: usize) -> usize
    ensures { result ≡ min (at + 6) (length input.now) }
{
    if fits(input.len(), at, 6) {
        return at + 6;
    }
    input.len()
}
