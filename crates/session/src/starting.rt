// The start of a session: the store opened with the start script of the input, or why it is not.
ghost use Rattle.session.specs.Started.{Started};

use inputs::{find_steps, steps_from};
use refusals::{RefusedText, check_length};
use store::Store;

// Opens the store of an input's start script: the place of the input where the step list begins; or the row that the
// input meets, with the line that meets it, 0 for the byte limit.
pub fn start_session(store: &mut Store, input: &[u8]) -> Result<usize, RefusedText>
    ensures { Started store.new input.now result }
{
    check_length(input)?;
    let at = find_steps(input);
    store.open(&input[..at])?;
    Ok(steps_from(input, at))
}
