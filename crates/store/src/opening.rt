// The store of a script text: its cues, an empty queue, and every transaction closed.
ghost use Rattle.std.specs.Prelude.{◌≡◌};
ghost use Rattle.scripts.specs.Script.{script_of, script_or_empty};
ghost use Rattle.boosting.specs.Store.{opened};
ghost use Rattle.store.specs.Answering.{opening};

use crate::{Store, all_closed};
use refusals::RefusedText;
use scripts::read_script;

impl Store {
    // Opens the store of a script text in place of what was there. A refused text opens the empty script.
    #[tactic(auto, unfolding(boosting::specs::Store::opened))]
    pub fn open(&mut self, text: &[u8]) -> Result<(), RefusedText>
        ensures answer { result ≡ opening (script_of text.now) }
        ensures store { self.new ≡ opened (script_or_empty (script_of text.now)) }
    {
        self.transactions = all_closed();
        match read_script(text) {
            Ok(script) => {
                self.object.open(script.keys());
                Ok(())
            }
            Err(refused) => {
                self.object.open(&[]);
                Err(refused)
            }
        }
    }
}
