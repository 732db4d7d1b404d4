// Eight bytes of a text as one number, so that they are read and compared at once.
//
// The compiler makes one load of the eight. The public function has no `requires`.
//
// Text and place are two parameters, as in `numbers`: one look at one place needs no cursor.
#![tactic(auto)]

ghost use Rattle.std.specs.Prelude.{◌+◌, ◌≤◌, ◌≡◌, length, take, drop};
ghost use Rattle.eight_bytes.specs.Eight.{AllBytes, eight_at};

// The number of the eight bytes at a place, the first byte the lowest; none where there are not eight.
pub fn eight_bytes(text: &[u8], at: usize) -> Option<u64>
    ensures number { result ≡ eight_at text.now at }
    ensures bytes { at + 8 ≤ length text.now → AllBytes (take 8 (drop at text.now)) }
{
    let bytes = text.get(at..)?.first_chunk::<8>()?;
    Some(u64::from_le_bytes(*bytes))
}
