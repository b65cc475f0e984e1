// Bytes put into text. Every function takes any argument.
// The text is a lent slice and a position: std's String has no code that the program of all libraries can name, and a `&mut` in a
// struct would owe each function one clause more, that it is still the same reference.
#![tactic(auto)]

ghost use Rattle.std.specs.Prelude.{◌≡◌};
ghost use Rattle.text.specs.Text.{hex_char, put_at, put_next, put_all, put_end, octet_text, hex_text};

// The last hexadecimal digit of a number, as a capital.
fn hex_char(n: u8) -> u8
    ensures { result ≡ hex_char n }
{
    let d = n % 16;
    if d < 10 {
        return 48 + d;
    }
    55 + d
}

// Puts a byte at a position and answers the position behind it. Past the end nothing is written, and the position stays.
pub fn put(out: &mut [u8], at: usize, b: u8) -> usize
    ensures bytes { out.new ≡ put_at out.old at b }
    ensures next { result ≡ put_next out.old at }
{
    if at < out.len() {
        out[at] = b;
        return at + 1;
    }
    at
}

// Puts bytes one behind the other from a position on, and answers the position behind the last that found room.
#[tactic(auto, using(crate::specs::Append::puts, crate::specs::Bytes::each_byte))]
pub fn put_all(out: &mut [u8], at: usize, s: &[u8]) -> usize
    ensures bytes { out.new ≡ put_all out.old at s.now }
    ensures next { result ≡ put_end out.old at s.now }
{
    let mut next = at;
    for i in 0..s.len() {
        next = put(out, next, s[i]);
    }
    next
}

// The two digits of a byte.
#[tactic(auto, using(crate::specs::Append::puts))]
fn put_octet(out: &mut [u8], at: usize, b: u8) -> usize
    ensures bytes { out.new ≡ put_all out.old at (octet_text b) }
    ensures next { result ≡ put_end out.old at (octet_text b) }
{
    let next = put(out, at, hex_char(b / 16));
    put(out, next, hex_char(b))
}

// Puts bytes in hexadecimal, two digits each, or `-` for none: what `text_read::bytes_at` reads.
#[tactic(auto, using(crate::specs::Append::puts, crate::specs::Bytes::each_octet))]
pub fn put_hex(out: &mut [u8], at: usize, s: &[u8]) -> usize
    ensures bytes { out.new ≡ put_all out.old at (hex_text s.now) }
    ensures next { result ≡ put_end out.old at (hex_text s.now) }
{
    if s.len() == 0 {
        return put(out, at, b'-');
    }
    let mut next = at;
    for i in 0..s.len() {
        next = put_octet(out, next, s[i]);
    }
    next
}
