// What a session prints, part behind part: put into a buffer where it is kept, or only counted.
//
// `keep` says which; answers that are counted need a buffer of one line. A closure or a type in place of `keep` would
// compile the engine twice, which costs a fifth of the speed; a `dyn` would be a trait and two impls for one flag; an
// `Option` of the buffer would be lent anew at each line, and each clause would take it apart. Buffer, `keep` and place
// are three parameters, and the room is asked for in each function: it is the room of the text that comes, which no
// type of the three can know. `HoldsOneLine` is asked for beside it: it holds of the buffer only where `keep` is false.
ghost use Rattle.std.specs.Prelude.{◌≡◌, length};
ghost use Rattle.answers.specs.Answer.{answer_text};
ghost use Rattle.closing_lists.specs.Closing.{closing_text};
ghost use Rattle.session.specs.Output.{start_refused};
ghost use Rattle.session.specs.Printing.{HasRoom, HoldsOneLine, Printed};

use answers::Answer;
use closing_lists::{closing_length, write_closing};
use digits::digit_count;
use records::write_record;
use refusals::RefusedText;
use shared_object::SharedObject;
use short_answers::append_answer;

// The line of an answer: the place behind it. A session that is counted puts each line over the last one: it takes the
// same branches as one that is kept, and the second of the two runs of a short buffer finds them learned.
pub fn put_answer(buf: &mut [u8], keep: bool, at: usize, answer: Answer) -> usize
    requires room { HasRoom keep buf.old at (answer_text answer) }
    requires counted { HoldsOneLine keep buf.old }
    ensures printed { Printed keep buf.old at (answer_text answer) result buf.new }
    ensures long { length buf.new ≡ length buf.old }
{
    let place = if keep { at } else { 0 };
    let end = append_answer(buf, place, answer);
    at + (end - place)
}

// The closing lists: the place behind them. By `unwrap_or`, here and below, though there is room: with `unwrap` the
// compiler arranges the loop of the steps another way, and the input that mostly waits takes 2 % longer.
pub fn put_closing(buf: &mut [u8], keep: bool, at: usize, object: &SharedObject) -> usize
    requires { HasRoom keep buf.old at (closing_text object.now) }
    ensures printed { Printed keep buf.old at (closing_text object.now) result buf.new }
    ensures long { length buf.new ≡ length buf.old }
{
    if keep {
        return write_closing(buf, at, object.script(), object.queue()).unwrap_or(at);
    }
    at + closing_length(object.script(), object.queue())
}

// The line `start,n,line` of a refused start: the place behind it.
pub fn put_refused(buf: &mut [u8], keep: bool, refused: RefusedText) -> usize
    requires { HasRoom keep buf.old 0 (start_refused refused.refusal refused.line) }
    ensures printed { Printed keep buf.old 0 (start_refused refused.refusal refused.line) result buf.new }
    ensures long { length buf.new ≡ length buf.old }
{
    let number = refused.refusal.number();
    // A `usize` has no `From` into `u64`.
    let line = refused.line as u64;
    if keep {
        return write_record(buf, 0, b"start", number, line).unwrap_or(0);
    }
    // The word `start`, two commas and the LF; nothing is composed where nothing is kept.
    8 + digit_count(number) + digit_count(line)
}
