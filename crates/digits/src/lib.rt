// The decimal digits of a number: counted, and written into a lent buffer.
//
// Every u64 has its digits, with no leading zero except 0 itself. They are written whole or not at all. No public
// function has a `requires`.
#![tactic(auto)]

ghost use Rattle.std.specs.Prelude.{◌≡◌, ◌≤◌, length};
ghost use Rattle.buffers.specs.Written.{written_at};
ghost use Rattle.digits.specs.Digits.{digits_of};

use buffers::write_bytes;
use refusals::Refusal;

// How many digits n has.
#[tactic(auto, using(crate::proofs::Decimal::count_rules))]
pub fn digit_count(n: u64) -> usize
    ensures counted { result ≡ length (digits_of n) }
    ensures short { result ≤ 20 }
{
    // Most numbers that are counted have one digit, and need no digits made.
    if n < 10 {
        return 1;
    }
    let mut digits = itoa::Buffer::new();
    digits.format(n).len()
}

// Writes the digits of n at a place of the buffer, if they fit there.
#[tactic(auto, using(crate::proofs::Decimal::decimal_digits))]
pub fn write_number(buf: &mut [u8], at: usize, n: u64) -> Result<usize, Refusal>
    ensures { (result, buf.new) ≡ written_at buf.old at (digits_of n) }
{
    let mut digits = itoa::Buffer::new();
    write_bytes(buf, at, digits.format(n).as_bytes())
}
