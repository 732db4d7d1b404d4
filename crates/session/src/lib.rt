// The whole program of the shared cue desk, as a function from the bytes of its input to the bytes of its output.
//
// The input is a start script, a line `steps` and a step list. The output is an answer line for each step, and after
// recovery the script and the queue; or one line that says why the session does not start. No public function has a
// `requires`.
#![tactic(auto)]

mod answering;
mod printing;
mod running;
mod starting;

pub use running::{ROOM, run_session, session_length};
