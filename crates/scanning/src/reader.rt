// The steps of a step list, one after the other, each read where its line stands.
ghost use Rattle.std.specs.Prelude.{◌≡◌, map};
ghost use Rattle.lines.specs.Lines.{lines_of};
ghost use Rattle.steps.specs.Step.{step_of};

use crate::scan_step;
use quick_words::WordTable;
use steps::Step;

#[derive(Drop)]
pub struct StepReader<'a> {
    words: WordTable,
    text: &'a [u8],
    at: usize,
}

impl<'a> StepReader<'a> {
    ghost use Rattle.scanning.specs.Reader.{steps_left};

    // A reader at the start of the text.
    pub fn new(text: &'a [u8]) -> StepReader<'a>
        ensures { steps_left result ≡ map step_of (lines_of text.now) }
    {
        StepReader {
            words: WordTable::new(),
            text,
            at: 0,
        }
    }
}

// A scan finds the end of a line as it reads it, so that most bytes are looked at once.
impl<'a> Iterator for StepReader<'a> {
    ghost use Rattle.std.specs.Iterator.{YieldsFirst, item_count};
    ghost use Rattle.scanning.specs.Reader.{steps_left};

    type Item = Option<Step>;

    ghost next_gives = { YieldsFirst steps_left };

    ghost remaining = { item_count steps_left };

    #[tactic(auto, using(crate::proofs::Steps::steps_rules))]
    fn next(&mut self) -> Option<Option<Step>> {
        if self.text.len() <= self.at {
            return None;
        }
        let scanned = scan_step(&self.words, self.text, self.at);
        self.at = scanned.end + 1;
        Some(scanned.step)
    }
}
