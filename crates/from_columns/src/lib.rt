// A recording from its columns, written straight into the caller's slice.
#![tactic(auto)]

ghost use Rattle.std.specs.Prelude.{◌≡◌, ◌+◌, ◌*◌, ◌<◌, ◌≤◌, ◌&&◌, length, ◌==◌};
ghost use Rattle.std.proofs.lemmas.List.Edits.{sets};
ghost use Rattle.big_endian.specs.BigEndian.{be_at};
ghost use Rattle.btsnoop_columns.specs.Format.{places};
ghost use Rattle.btsnoop_columns.specs.Read.{stand, included_total, none_longer, is_arranged};
ghost use Rattle.btsnoop_columns.specs.Answer.{from_columns_of, from_columns_left};
ghost use Rattle.from_columns.specs.Answer.{from_columns_reply};
ghost use Rattle.from_columns.specs.Take.{rest_from};

use refusal::Refusal;

fn is_pair(c: &[u8], at: usize, offset: usize, size: usize) -> bool
    requires { at < 56 }
    ensures { result ≡ (be_at 4 c.now at == offset && be_at 4 c.now (at + 4) == size) }
{
    if big_endian::u32_at(c, at) as usize != offset {
        return false;
    }
    big_endian::u32_at(c, at + 4) as usize == size
}

// Whether the five pairs are those of n records with b bytes. Both are read from `c`: a struct of the three would only repeat it.
fn are_places(c: &[u8], n: u32, b: u32) -> bool
    ensures { result ≡ stand c.now 16 (places n b) }
{
    let n = n as usize;
    let b = b as usize;
    if !is_pair(c, 16, 56, 8 * n) {
        return false;
    }
    if !is_pair(c, 24, 56 + 8 * n, 4 * n) {
        return false;
    }
    if !is_pair(c, 32, 56 + 12 * n, 4 * n) {
        return false;
    }
    if !is_pair(c, 40, 56 + 16 * n, 8 * n) {
        return false;
    }
    is_pair(c, 48, 56 + 24 * n, b)
}

// Whether the n included lengths make b bytes, and none is above its original.
fn lengths_agree(c: &[u8], n: u32, b: u32) -> bool
    ensures { result ≡ (included_total c.now n 56 == b && none_longer c.now n 56) }
{
    let n = n as usize;
    let mut total: usize = 0;
    for i in 0..n {
        let original = big_endian::u32_at(c, 56 + 8 * i);
        let included = big_endian::u32_at(c, 56 + 8 * i + 4);
        if original < included {
            return false;
        }
        total += included as usize;
    }
    total == b as usize
}

// 21 where it is false.
fn is_arranged(c: &[u8]) -> bool
    ensures { result ≡ is_arranged c.now }
{
    let n = big_endian::u32_at(c, 20) / 8;
    let b = big_endian::u32_at(c, 52);
    if c.len() != 56 + 24 * (n as usize) + (b as usize) {
        return false;
    }
    if !are_places(c, n, b) {
        return false;
    }
    if !lengths_agree(c, n, b) {
        return false;
    }
    c.len() <= 4_294_967_295
}

// The n records, behind the header.
fn put_records(c: &[u8], n: u32, out: &mut [u8])
    requires size { 56 + 24 * n + included_total c.now n 56 ≡ length c.now }
    requires room { length c.now ≤ length out.old + 40 }
    ensures { out.new ≡ sets out.old 16 (rest_from c.now n 0 0 (56 + 24 * n)) }
{
    let n = n as usize;
    let mut at: usize = 16;
    let mut from: usize = 56 + 24 * n;
    let mut before: u64 = 0;
    for i in 0..n {
        let original = big_endian::u32_at(c, 56 + 8 * i);
        let included = big_endian::u32_at(c, 56 + 8 * i + 4);
        let flags = big_endian::u32_at(c, 56 + 8 * n + 4 * i);
        let drops = big_endian::u32_at(c, 56 + 12 * n + 4 * i);
        let since = big_endian::u64_at(c, 56 + 16 * n + 8 * i);
        let timestamp = before.wrapping_add(since);
        let end = from + (included as usize);
        btsnoop_put::put_record(out, at, original, flags, drops, timestamp, &c[from..end]);
        at = at + 24 + (included as usize);
        from = end;
        before = timestamp;
    }
}

// 11, 21, 10 in this order; where it refuses nothing is written.
pub fn from_columns(c: &[u8], out: &mut [u8]) -> Result<usize, Refusal>
    ensures reply { from_columns_reply result ≡ from_columns_of c.now out.old }
    ensures bytes { out.new ≡ from_columns_left c.now out.old }
{
    if !btsnoop_read::is_header(c) {
        return Err(Refusal::Header);
    }
    if !is_arranged(c) {
        return Err(Refusal::Columns);
    }
    let size = c.len() - 40;
    if out.len() < size {
        return Err(Refusal::Space);
    }
    let datalink = big_endian::u32_at(c, 12);
    btsnoop_put::put_header(out, datalink);
    put_records(c, big_endian::u32_at(c, 20) / 8, out);
    Ok(size)
}
