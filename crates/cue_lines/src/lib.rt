// Cue lines: the cue that a line `time,module,pin`, without its LF, stands for.
//
// What a cue is, and its ranges, is in `cues`; its line is written in `cue_texts`. No public function has a `requires`.
#![tactic(auto)]

ghost use Rattle.std.specs.Prelude.{◌≡◌};
ghost use Rattle.cue_lines.specs.CueLine.{fields_of, cue_line_of};

use cues::{Cue, CueNumbers};
use numbers::{read_inner_field, read_number};
use refusals::Refusal;

// The three numbers of `time,module,pin`, without its LF, in one pass. Their range is not tried.
#[tactic(auto, using(crate::proofs::Laws::field_rules))]
pub fn read_fields(line: &[u8]) -> Option<CueNumbers>
    ensures { result ≡ fields_of line.now }
{
    let time = read_inner_field(line, 0)?;
    let module = read_inner_field(line, time.end + 1)?;
    let pin = read_number(&line[module.end + 1..])?;
    Some(CueNumbers {
        time: time.value,
        module: module.value,
        pin,
    })
}

// The cue of a line, without its LF; or refusal 1, malformed, or 7, out of range.
pub fn read_cue(line: &[u8]) -> Result<Cue, Refusal>
    ensures { result ≡ cue_line_of line.now }
{
    let numbers = read_fields(line).ok_or(Refusal::Malformed)?;
    Cue::try_from(numbers)
}
