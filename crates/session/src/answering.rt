// The store stepped through a step list, line after line, and each step answered.
//
// The engine is compiled once, into this loop: a second place that calls it costs a fifth of the speed.
ghost use Rattle.std.specs.Prelude.{◌≡◌, length};
ghost use Rattle.lines.specs.Lines.{lines_of};
ghost use Rattle.boosting.specs.Run.{run};
ghost use Rattle.session.specs.Output.{answer_lines};
ghost use Rattle.session.specs.Printing.{HasRoom, HoldsOneLine, Printed};

use crate::printing::put_answer;
use scanning::StepReader;
use store::Store;

// Steps through all lines: the place behind their answer lines.
pub fn answer_lines(buf: &mut [u8], keep: bool, store: &mut Store, text: &[u8]) -> usize
    requires room { HasRoom keep buf.old 0 (answer_lines store.old (lines_of text.now)) }
    requires counted { HoldsOneLine keep buf.old }
    ensures printed { Printed keep buf.old 0 (answer_lines store.old (lines_of text.now)) result buf.new }
    ensures long { length buf.new ≡ length buf.old }
    ensures stepped { store.new ≡ (run store.old (lines_of text.now)).store }
{
    let mut end = 0;
    for step in StepReader::new(text) {
        let answer = store.execute(step);
        end = put_answer(buf, keep, end, answer);
    }
    end
}
