// Numbers and bytes read from text. Every function takes any argument.
// A slice and a position stay two arguments, and not the rest of the slice: a position may lie past the end, and is answered too.
#![tactic(auto)]

ghost use Rattle.std.specs.Prelude.{◌≡◌, ◌+◌, ◌*◌, drop};
ghost use Rattle.text.specs.Text.{put_all, put_end};
ghost use Rattle.text_read.specs.Read.{step_of, ended_of, number_at, hex_digit, octet_at, hex_bytes, bytes_in, behind_bytes};

// A number, and the position behind it.
#[derive(Clone, Copy)]
pub struct NumberAt {
    pub value: u64,
    pub next: usize,
}

// Why no number stands at a position: there is no digit, or 64 bits do not hold it.
#[derive(Clone, Copy)]
pub enum NumberError {
    NoDigit,
    TooLarge,
}

// How many bytes were read to the start of a lent slice, and the position behind their text.
#[derive(Clone, Copy)]
pub struct BytesAt {
    pub n: usize,
    pub next: usize,
}

// The number read so far with one byte more; none where the byte is no digit.
fn take_digit(value: u64, b: u8) -> Result<Option<u64>, NumberError>
    ensures { result ≡ step_of value b }
{
    if b < 48 {
        return Ok(None);
    }
    if 57 < b {
        return Ok(None);
    }
    if 1844674407370955161 < value {
        return Err(NumberError::TooLarge);
    }
    let tens = value * 10;
    let digit = (b - 48) as u64;
    if 18446744073709551615 - tens < digit {
        return Err(NumberError::TooLarge);
    }
    Ok(Some(tens + digit))
}

// The digits from `at` up to `i` have this value.
fn ended(at: usize, i: usize, value: u64) -> Result<NumberAt, NumberError>
    ensures { result ≡ ended_of at i value }
{
    if i == at {
        return Err(NumberError::NoDigit);
    }
    Ok(NumberAt { value, next: i })
}

// The decimal number at a position. Leading zeros are taken.
pub fn number_at(s: &[u8], at: usize) -> Result<NumberAt, NumberError>
    ensures { result ≡ number_at s.now at }
{
    if s.len() <= at {
        return Err(NumberError::NoDigit);
    }
    let mut value: u64 = 0;
    for i in at..s.len() {
        match take_digit(value, s[i]) {
            Ok(None) => {
                return ended(at, i, value);
            }
            Err(e) => {
                return Err(e);
            }
            Ok(Some(v)) => {
                value = v;
            }
        }
    }
    ended(at, s.len(), value)
}

// The value of a hexadecimal digit of either case.
fn hex_digit(b: u8) -> Option<u8>
    ensures { result ≡ hex_digit b }
{
    if b < 48 {
        return None;
    }
    if b <= 57 {
        return Some(b - 48);
    }
    if b < 65 {
        return None;
    }
    if b <= 70 {
        return Some(b - 55);
    }
    if b < 97 {
        return None;
    }
    if b <= 102 {
        return Some(b - 87);
    }
    None
}

// The byte whose two digits stand at a position.
fn octet_at(s: &[u8], at: usize) -> Option<u8>
    ensures { result ≡ octet_at s.now at }
{
    if s.len() <= at {
        return None;
    }
    let next = at + 1;
    if s.len() <= next {
        return None;
    }
    let Some(high) = hex_digit(s[at]) else {
        return None;
    };
    let Some(low) = hex_digit(s[next]) else {
        return None;
    };
    Some(high * 16 + low)
}

// As many bytes as stand at a position, two digits each, and find room.
#[tactic(auto, using(text::specs::Append::puts, text::specs::Append::no_room, crate::specs::Bytes::octets))]
fn octets_at(s: &[u8], at: usize, into: &mut [u8]) -> BytesAt
    ensures bytes { into.new ≡ put_all into.old 0 (hex_bytes (drop at s.now)) }
    ensures count { result.n ≡ put_end into.old 0 (hex_bytes (drop at s.now)) }
    ensures next { result.next ≡ at + 2 * result.n }
{
    let mut next = at;
    for n in 0..into.len() {
        let Some(b) = octet_at(s, next) else {
            return BytesAt { n, next };
        };
        into[n] = b;
        next += 2;
    }
    BytesAt {
        n: into.len(),
        next,
    }
}

// The same where `-` stands for no byte.
#[tactic(auto, using(text::specs::Append::puts, crate::specs::Bytes::past))]
pub fn bytes_at(s: &[u8], at: usize, into: &mut [u8]) -> BytesAt
    ensures bytes { into.new ≡ put_all into.old 0 (bytes_in s.now at) }
    ensures count { result.n ≡ put_end into.old 0 (bytes_in s.now at) }
    ensures next { result.next ≡ behind_bytes s.now at result.n }
{
    if s.len() <= at {
        return BytesAt { n: 0, next: at };
    }
    if s[at] == b'-' {
        return BytesAt { n: 0, next: at + 1 };
    }
    octets_at(s, at, into)
}
