// The short numbers of a step line, read where they stand: of one digit or two, and of at most seven.
//
// There is none where the text ends too soon, where no digit stands there, where a number has a leading zero, and where
// seven digits have another behind them. No public function has a `requires`.
//
// It stands beside `numbers` for speed: before the desk had its quick parts, the input that mostly waits took as long
// as the plain desk, and `seven_digits` was worth 3 % (docs/BENCHMARKS.md, "The desk"). Text and place are two
// parameters, as in `numbers`: one look at one place needs no cursor.
#![tactic(auto)]

ghost use Rattle.std.specs.Prelude.{◌≡◌, ◌+◌, ◌-◌, ◌*◌, ◌/◌, ◌%◌, ◌^◌, ◌≤◌, drop};
ghost use Rattle.std.specs.Int.Count.{count_trailing_zeros};
ghost use Rattle.quick_numbers.specs.Bytes.{Digits, small_bytes, folded};
ghost use Rattle.quick_numbers.specs.Short.{short_of};

use eight_bytes::eight_bytes;

// In each of the eight bytes 48, the digit 0.
const EACH_48: u64 = 0x3030_3030_3030_3030;

// In each of the eight bytes 118: a byte at most 9 stays below 128 with it, any other reaches 128.
const EACH_118: u64 = 0x7676_7676_7676_7676;

// In each of the eight bytes 128.
const TOP_BITS: u64 = 0x8080_8080_8080_8080;

// The first, third, fifth and seventh byte.
const EVERY_SECOND_BYTE: u64 = 0x00FF_00FF_00FF_00FF;

// The first two bytes, and the fifth and sixth.
const EVERY_SECOND_TWO: u64 = 0x0000_FFFF_0000_FFFF;

// A number, and how many digits it has.
#[derive(Clone, Copy, Debug, PartialEq, Eq)]
pub struct Short {
    pub value: u64,
    pub digits: usize,
}

// The digit that a byte is; above 9 where it is none: an `Option` would be asked, and here nothing may branch.
fn digit_of(byte: u8) -> u64
    ensures { (result + 48) % 2 ^ 64 ≡ byte }
{
    u64::from(byte).wrapping_sub(48)
}

// A number of one digit or two. Which of the two cannot be guessed, so nothing branches on it.
#[tactic(auto, using(crate::proofs::Two::no_text))]
pub fn two_digits(text: &[u8], at: usize) -> Option<Short>
    ensures { result ≡ short_of 2 2 (drop at text.now) }
{
    let bytes = text.get(at..)?.first_chunk::<2>()?;
    let first = digit_of(bytes[0]);
    let second = digit_of(bytes[1]);
    if 9 < first {
        return None;
    }
    let mut value = first;
    let mut digits = 1;
    if second <= 9 {
        value = first * 10 + second;
        digits = 2;
    }
    if digits == 2 && first == 0 {
        return None;
    }
    Some(Short { value, digits })
}

// Zero where each of the eight bytes of `z` is at most 9; else its lowest bit is the top bit of the first larger byte.
fn larger_bytes(z: u64) -> u64
    ensures { count_trailing_zeros 64 result / 8 ≡ small_bytes 8 z }
{
    (z.wrapping_add(EACH_118) | z) & TOP_BITS
}

// The first `n` bytes of `z` with zeros in front, eight bytes again.
fn moved_up(z: u64, n: usize) -> u64
    requires some { 1 ≤ n }
    requires few { n ≤ 7 }
    ensures { result ≡ z * 2 ^ (64 - 8 * n) % 2 ^ 64 }
{
    z << (64 - 8 * n)
}

// The number of eight digits, of which the lowest byte is the first: folded in pairs, in fours, and all.
fn number_of(y: u64) -> u64
    requires { Digits 8 y }
    ensures { result ≡ folded 8 0 y }
{
    let pairs = (y * 10 + (y >> 8)) & EVERY_SECOND_BYTE;
    let fours = (pairs * 100 + (pairs >> 16)) & EVERY_SECOND_TWO;
    (fours * 10000 + (fours >> 32)) % 4294967296
}

// A number of at most seven digits, in eight bytes. How many there are cannot be guessed, so nothing branches on it:
// the first byte that is no digit tells the count, and with zeros in front there are always eight digits to fold.
pub fn seven_digits(text: &[u8], at: usize) -> Option<Short>
    ensures { result ≡ short_of 7 8 (drop at text.now) }
{
    let z = eight_bytes(text, at)?.wrapping_sub(EACH_48);
    // `as`, here and below: a `u32` has no `From` into `usize`, nor a `usize` into `u64`.
    let n = (larger_bytes(z).trailing_zeros() / 8) as usize;
    if n < 1 || 7 < n {
        return None;
    }
    let y = moved_up(z, n);
    // A first digit 0 allows one digit, any other allows seven: one comparison, as the first digit cannot be guessed.
    if 1 + z % 256 * 9 < n as u64 {
        return None;
    }
    Some(Short {
        value: number_of(y),
        digits: n,
    })
}
