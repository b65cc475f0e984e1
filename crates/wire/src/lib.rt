// Bytes and numbers of 16 bits in a slice, least significant byte first, and a message put into a lent slice.
#![tactic(auto)]

ghost use Rattle.std.specs.Prelude.{◌≡◌, ◌%◌, ◌/◌, true, get_or};
ghost use Rattle.wire.specs.Wire.{u16_at, write_reply, writing, written};

use refusal::Refusal;

// The byte at a position; past the end it counts as 0.
pub fn byte_at(s: &[u8], at: usize) -> u8
    ensures { result ≡ get_or s.now at 0 }
{
    // std's `get` has no code that the program of all libraries can name.
    if at < s.len() { s[at] } else { 0 }
}

// The number at a position; a byte past the end counts as 0.
pub fn u16_at(s: &[u8], at: usize) -> u16
    ensures { result ≡ u16_at s.now at }
{
    if s.len() <= at {
        return 0;
    }
    let low = byte_at(s, at);
    let high = byte_at(s, at + 1);
    (low as u16) + 256 * (high as u16)
}

// A number's two bytes. std's `to_le_bytes` has no code that the program of all libraries can name.
pub fn low_byte(x: u16) -> u8
    ensures { result ≡ x % 256 }
{
    (x % 256) as u8
}

pub fn high_byte(x: u16) -> u8
    ensures { result ≡ x / 256 }
{
    (x / 256) as u8
}

// Puts a whole message at the start of a slice, or nothing where the slice is too short.
pub fn put(out: &mut [u8], message: &[u8]) -> Result<usize, Refusal>
    ensures reply { write_reply result ≡ writing true message.now out.old }
    ensures bytes { out.new ≡ written true message.now out.old }
{
    let n = message.len();
    if out.len() < n {
        return Err(Refusal::Space);
    }
    // std's `copy_from_slice` and iterators have no code that the program of all libraries can name.
    for i in 0..n {
        out[i] = message[i];
    }
    Ok(n)
}
