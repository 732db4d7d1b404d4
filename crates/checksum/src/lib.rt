// The checksum of a text, which users know as its stamp. Sums that run past the top of a u32 start again from zero.
#![tactic(auto)]

mod weights; // weights.rt: the weight of each byte

ghost use Rattle.std.specs.Prelude.{◌≡◌, ◌*◌, ◌%◌, ◌^◌};
ghost use Rattle.checksum.specs.Checksum.{checksum_from, checksum_of};

// The checksum of text, of any length.
pub fn checksum(text: &[u8]) -> u32
    ensures { result ≡ checksum_of text.now }
{
    checksum_from(0, text)
}

// The checksum of a longer text whose earlier bytes have the checksum `before`, and whose last
// piece is text: a text can be done in pieces.
pub fn checksum_from(before: u32, text: &[u8]) -> u32
    ensures { result ≡ checksum_from before text.now }
{
    let weights = weights::table();
    let mut sum = before;
    for byte in text {
        sum = times_31(sum).wrapping_add(weights[usize::from(*byte)]);
    }
    sum
}

// 31 times x, modulo 2^32.
fn times_31(x: u32) -> u32
    ensures { result ≡ 31 * x % 2 ^ 32 }
{
    x.wrapping_mul(31)
}
