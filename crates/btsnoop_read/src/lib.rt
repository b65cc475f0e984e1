// A btsnoop recording: its header, and the record at a position.
// A slice and a position stay two arguments, and not the rest of the slice: a position may lie past the end, and is answered too.
#![tactic(auto)]

ghost use Rattle.std.specs.Prelude.{◌≡◌, cond, Some, None};
ghost use Rattle.btsnoop_read.specs.Format.{is_datalink};
ghost use Rattle.btsnoop_read.specs.Read.{is_header, is_whole, head_at};

// A record's numbers.
#[derive(Clone, Copy)]
pub struct RecordHead {
    pub original: u32,
    pub included: u32,
    pub flags: u32,
    pub drops: u32,
    pub timestamp: u64,
}

// The number is four bytes of the header, of which any may come.
fn is_datalink(d: u32) -> bool
    ensures { result ≡ is_datalink d }
{
    d == 1001 || d == 1002
}

// 11 where it is false.
pub fn is_header(s: &[u8]) -> bool
    ensures { result ≡ is_header s.now }
{
    if s.len() < 16 {
        return false;
    }
    if big_endian::u64_at(s, 0) != 0x6274736E6F6F7000 {
        return false;
    }
    if big_endian::u32_at(s, 8) != 1 {
        return false;
    }
    is_datalink(big_endian::u32_at(s, 12))
}

// Whether a whole record stands at a position, with no more included than there was: 12 where it is false.
pub fn is_whole(s: &[u8], at: usize) -> bool
    ensures { result ≡ is_whole s.now at }
{
    let n = s.len();
    if n < 24 {
        return false;
    }
    if n - 24 < at {
        return false;
    }
    let included = big_endian::u32_at(s, at + 4);
    if n - 24 - at < (included as usize) {
        return false;
    }
    included <= big_endian::u32_at(s, at)
}

// The numbers of the record at a position; a byte past the end counts as 0.
pub fn head_at(s: &[u8], at: usize) -> RecordHead
    ensures { result ≡ head_at s.now at }
{
    if s.len() <= at {
        return RecordHead {
            original: 0,
            included: 0,
            flags: 0,
            drops: 0,
            timestamp: 0,
        };
    }
    let original = big_endian::u32_at(s, at);
    let included = big_endian::u32_at(s, at + 4);
    let flags = big_endian::u32_at(s, at + 8);
    let drops = big_endian::u32_at(s, at + 12);
    let timestamp = big_endian::u64_at(s, at + 16);
    RecordHead {
        original,
        included,
        flags,
        drops,
        timestamp,
    }
}

// The numbers of the whole record that stands at a position, if one does. A walk over a recording is
// `while let Some(head) = record_at(s, at)`: one walk over any step would ask what each step requires of its counts.
pub fn record_at(s: &[u8], at: usize) -> Option<RecordHead>
    ensures { result ≡ cond (is_whole s.now at) (Some (head_at s.now at)) None }
{
    if is_whole(s, at) {
        return Some(head_at(s, at));
    }
    None
}
