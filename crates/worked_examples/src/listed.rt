// The cases that stand one behind the other in a text, as the file `stdin` has them.
ghost use Rattle.std.specs.Prelude.{◌≤◌, length};

use crate::cases::check_case;
use lines::find_byte;

// The cases that are left of a text.
#[derive(Drop)]
struct Cases<'a>(&'a [u8]);

impl<'a> Cases<'a> {
    // Each case begins with `#`; what stands in front of the first is for the reader.
    fn new(text: &'a [u8]) -> Cases<'a>
        ensures { length result.0.now ≤ length text.now }
    {
        Cases(&text[find_byte(text, 0, b'#')..])
    }
}

impl<'a> Iterator for Cases<'a> {
    ghost use Rattle.std.specs.Prelude.{◌<◌, length, IfSome};
    ghost use Rattle.std.specs.Iterator.{at_most};

    type Item = &'a [u8];

    ghost next_gives = { λ before case after. IfSome case (λ _. length after.0.now < length before.0.now) };

    ghost remaining = { λ cases. at_most (length cases.0.now) };

    fn next(&mut self) -> Option<&'a [u8]> {
        if self.0.is_empty() {
            return None;
        }
        let (case, others) = self.0.split_at(find_byte(self.0, 1, b'#'));
        self.0 = others;
        Some(case)
    }
}

// How many cases a text has, and how many of them are right.
#[derive(Drop)]
pub struct Tally {
    pub met: u64,
    pub right: u64,
}

// Checks the cases of a text.
pub fn check_cases<R: Print>(rt: &R, text: &[u8]) -> Tally
    ensures { (result.right ≤ result.met) × (result.met ≤ length text.now) }
{
    let mut met = 0;
    let mut right = 0;
    // Two counts in one pass, so that no case is run twice.
    for case in Cases::new(text) {
        right += u64::from(check_case(rt, case));
        met += 1;
    }
    Tally { met, right }
}
