// Numbers of 32 and of 64 bits in a slice, most significant byte first.
// A slice and a position stay two arguments, and not the rest of the slice: a position may lie past the end, and is answered too.
#![tactic(auto)]

ghost use Rattle.std.specs.Prelude.{◌≡◌, ◌≤◌, ◌<◌, ◌^◌};
ghost use Rattle.big_endian.specs.BigEndian.{be_at};

// The number that the n bytes from a position on are; a byte past the end counts as 0.
fn number(s: &[u8], at: usize, n: usize) -> u64
    requires { n ≤ 8 }
    ensures bytes { result ≡ be_at n s.now at }
    ensures small { result < 256 ^ n }
{
    if s.len() <= at {
        return 0;
    }
    let part = &s[at..];
    let mut x: u64 = 0;
    for i in 0..n {
        x = x * 256 + (wire::byte_at(part, i) as u64);
    }
    x
}

// The number of 64 bits at a position; a byte past the end counts as 0.
pub fn u64_at(s: &[u8], at: usize) -> u64
    ensures { result ≡ be_at 8 s.now at }
{
    number(s, at, 8)
}

// The same of 32 bits.
pub fn u32_at(s: &[u8], at: usize) -> u32
    ensures { result ≡ be_at 4 s.now at }
{
    (number(s, at, 4) % 0x1_0000_0000) as u32
}
