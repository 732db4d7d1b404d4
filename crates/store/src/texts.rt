// The cue lines of the script and of the queue, in rising order, written at a place of a lent buffer: whole or not at
// all. A type that says which of the two is meant would make these four lines no shorter.
ghost use Rattle.std.specs.Prelude.{◌≡◌, length};
ghost use Rattle.buffers.specs.Written.{written_at};
ghost use Rattle.scripts.specs.ScriptText.{text_of};

use crate::Store;
use refusals::Refusal;
use script_texts::{cues_length, write_cues};

impl Store {
    // How many bytes the script's lines have.
    pub fn script_length(&self) -> usize
        ensures { result ≡ length (text_of self.now.state.script) }
    {
        cues_length(self.object.script())
    }

    // How many bytes the queue's lines have.
    pub fn queue_length(&self) -> usize
        ensures { result ≡ length (text_of self.now.state.queue) }
    {
        cues_length(self.object.queue())
    }

    // Writes the script's lines, if they fit.
    pub fn write_script(&self, buf: &mut [u8], at: usize) -> Result<usize, Refusal>
        ensures { (result, buf.new) ≡ written_at buf.old at (text_of self.now.state.script) }
    {
        write_cues(buf, at, self.object.script())
    }

    // Writes the queue's lines, if they fit.
    pub fn write_queue(&self, buf: &mut [u8], at: usize) -> Result<usize, Refusal>
        ensures { (result, buf.new) ≡ written_at buf.old at (text_of self.now.state.queue) }
    {
        write_cues(buf, at, self.object.queue())
    }
}
