// Cues: their ranges, their order, and the one number that stands for a cue in a table.
//
// Outside a table a cue is the record `Cue`; inside one it is a single number, its key, which keeps
// the order of cues, so that equality and order are one comparison. No public function has a `requires`.
// The lines that stand for cues are in `cue_lines`.
#![tactic(auto)]

ghost use Rattle.std.specs.Prelude.{◌≡◌};
ghost use Rattle.cues.specs.Cue.{in_range, key_of, cue_of};

use refusals::Refusal;

#[derive(Clone, Copy, Debug, PartialEq, Eq, PartialOrd, Ord)]
pub struct Cue {
    pub time: u32,
    pub module: u8,
    pub pin: u8,
}

impl Cue {
    // No `From`, here and below: a number is no cue, and the name says which number is meant.
    pub fn key(self) -> u64
        ensures { result ≡ key_of self }
    {
        (u64::from(self.time) * 256 + u64::from(self.module)) * 256 + u64::from(self.pin)
    }

    // The cue of a key. Any number will do; the keys of cues give those cues back.
    pub fn of_key(key: u64) -> Cue
        ensures { result ≡ cue_of key }
    {
        // `as`, since a remainder that fits has no `From` into the smaller type.
        Cue {
            time: (key / 65536 % 4294967296) as u32,
            module: (key / 256 % 256) as u8,
            pin: (key % 256) as u8,
        }
    }
}

// The three numbers of a cue as they were read, whatever their range.
#[derive(Clone, Copy, Debug, PartialEq, Eq)]
pub struct CueNumbers {
    pub time: u64,
    pub module: u64,
    pub pin: u64,
}

impl CueNumbers {
    pub fn in_range(self) -> bool
        ensures { result ≡ in_range self.time self.«module» self.pin }
    {
        self.time <= 3_599_999 && (1..=99).contains(&self.module) && (1..=32).contains(&self.pin)
    }
}

impl TryFrom<CueNumbers> for Cue {
    ghost use Rattle.cues.specs.Ranged.{GivesCue};

    type Error = Refusal;

    ghost try_from_gives = { GivesCue };

    fn try_from(numbers: CueNumbers) -> Result<Cue, Refusal> {
        if !numbers.in_range() {
            return Err(Refusal::CueOutOfRange);
        }
        // `as`, since the test has found that each fits: `try_from` would have a second, empty refusal.
        Ok(Cue {
            time: numbers.time as u32,
            module: numbers.module as u8,
            pin: numbers.pin as u8,
        })
    }
}
