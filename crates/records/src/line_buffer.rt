// A short line, composed on the stack before it is written: so that all of it is written or nothing. Where a line is
// counted and not written, none is composed (`answers`, `cue_texts`).
//
// What does not fit is left out, and the clauses say so (`pushed`): so no push asks for room, and none has an error to
// handle. Lines have no `Display`: what `fmt` has written where it fails, no clause says.
ghost use Rattle.std.specs.Prelude.{◌≡◌, ◌+◌, ◌≤◌, ℕ, List, [], ◌∷◌, ◌++◌, length};
ghost use Rattle.digits.specs.Digits.{digits_of};
ghost use Rattle.records.specs.Pushed.{pushed};
ghost use Rattle.records.specs.Record.{field_text};

use arrayvec::ArrayVec;
use std::marker::Model;

// 96: the lines of a transaction's three modes have together at most 93 bytes, any other line fewer.
#[derive(Drop)]
pub struct LineBuffer {
    bytes: ArrayVec<u8, 96>,
}

impl Model for LineBuffer {
    ghost Value = { List ℕ };

    ghost view = { λ l. l.bytes.items };
}

impl LineBuffer {
    pub fn new() -> LineBuffer
        ensures { result ≡ [] }
    {
        LineBuffer {
            bytes: ArrayVec::new(),
        }
    }

    #[tactic(auto, using(crate::proofs::Pushes::pushed_rules))]
    pub fn push_bytes(&mut self, bytes: &[u8])
        ensures is { self.new ≡ pushed self.old bytes.now }
        ensures added { length self.old + length bytes.now ≤ 96 → self.new ≡ self.old ++ bytes.now }
        ensures short { length self.new ≤ length self.old + length bytes.now }
    {
        let _ = self.bytes.try_extend_from_slice(bytes);
    }

    #[tactic(auto, using(crate::proofs::Pushes::pushed_rules))]
    pub fn push(&mut self, byte: u8)
        ensures is { self.new ≡ pushed self.old (byte ∷ []) }
        ensures added { length self.old + 1 ≤ 96 → self.new ≡ self.old ++ byte ∷ [] }
        ensures short { length self.new ≤ length self.old + 1 }
    {
        let _ = self.bytes.try_push(byte);
    }

    #[tactic(auto, using(digits::proofs::Decimal::decimal_digits, digits::proofs::Decimal::digits_in_room))]
    pub fn push_number(&mut self, n: u64)
        ensures is { self.new ≡ pushed self.old (digits_of n) }
        ensures added { length self.old + 20 ≤ 96 → self.new ≡ self.old ++ digits_of n }
        ensures short { length self.new ≤ length self.old + 20 }
    {
        let mut digits = itoa::Buffer::new();
        self.push_bytes(digits.format(n).as_bytes());
    }

    // The digits of n and a byte behind them. Number and byte are two parameters here and in `field_line` and
    // `write_field`: no value of both is ever kept.
    pub fn push_field(&mut self, n: u64, behind: u8)
        ensures is { self.new ≡ pushed (pushed self.old (digits_of n)) (behind ∷ []) }
        ensures added { length self.old + 21 ≤ 96 → self.new ≡ self.old ++ field_text n behind }
        ensures short { length self.new ≤ length self.old + 21 }
    {
        self.push_number(n);
        self.push(behind);
    }

    pub fn as_bytes(&self) -> &[u8]
        ensures { result.now ≡ self.now }
    {
        self.bytes.as_slice()
    }
}
