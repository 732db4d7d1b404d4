// Writing bytes into a lent buffer, all of them or none.
//
// Every writer of the desk keeps to one promise, the definition `written_at`: where the bytes fit, they
// stand at the place asked for and the answer is the place behind them; where they do not fit, the
// answer is refusal 14 and every byte of the buffer stays. Bytes beside the text always stay.
// No public function has a `requires`.
//
// Buffer and place are two parameters and no struct: a writer answers the place behind its bytes, which its caller
// hands on. Callers name any place, so a cursor would be made of both at each entry and taken apart behind it.
#![tactic(auto)]

ghost use Rattle.std.specs.Prelude.{◌≡◌, ◌+◌, ◌++◌, nat_le, length};
ghost use Rattle.buffers.specs.Written.{written_at};

use refusals::Refusal;

// Whether `count` bytes from the place `at` on lie within `room`. No sum here can wrap.
pub fn fits(room: usize, at: usize, count: usize) -> bool
    ensures { result ≡ nat_le (at + count) room }
{
    if room < at {
        return false;
    }
    if room - at < count {
        return false;
    }
    true
}

// Writes the bytes from a place on, if they fit there, and answers the place behind them.
#[tactic(auto, unfolding(crate::specs::Written::written_at))]
pub fn write_bytes(buf: &mut [u8], at: usize, bytes: &[u8]) -> Result<usize, Refusal>
    ensures { (result, buf.new) ≡ written_at buf.old at bytes.now }
{
    if !fits(buf.len(), at, bytes.len()) {
        return Err(Refusal::BufferTooShort);
    }
    let end = at + bytes.len();
    buf[at..end].copy_from_slice(bytes);
    Ok(end)
}

// Writes two stretches of bytes, one behind the other, if both fit.
pub fn write_both(buf: &mut [u8], at: usize, first: &[u8], second: &[u8]) -> Result<usize, Refusal>
    ensures { (result, buf.new) ≡ written_at buf.old at (first.now ++ second.now) }
{
    if fits(buf.len(), at, first.len() + second.len()) {
        let middle = write_bytes(buf, at, first)?;
        return write_bytes(buf, middle, second);
    }
    Err(Refusal::BufferTooShort)
}
