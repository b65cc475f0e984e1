// Numbers, most significant byte first, and bytes put into a lent slice. What would stand past its end is left out.
// A slice and a position stay two arguments: a struct of both would owe each function a clause more (`text`).
#![tactic(auto)]

ghost use Rattle.std.specs.Prelude.{◌≡◌, ◌+◌, set};
ghost use Rattle.std.proofs.lemmas.List.Edits.{sets};
ghost use Rattle.big_endian.specs.BigEndian.{be};

// The byte i behind a position.
fn put_byte(out: &mut [u8], at: usize, i: usize, b: u8)
    ensures { out.new ≡ set out.old (at + i) b }
{
    let n = out.len();
    if n <= at {
        return;
    }
    if n - at <= i {
        return;
    }
    out[at + i] = b;
}

// The n bytes of a number, from the last to the first.
pub fn put_number(out: &mut [u8], at: usize, n: usize, x: u64)
    ensures { out.new ≡ sets out.old at (be n x) }
{
    let mut rest: u64 = x;
    for i in (0..n).rev() {
        put_byte(out, at, i, (rest % 256) as u8);
        rest = rest / 256;
    }
}

pub fn put_bytes(out: &mut [u8], at: usize, s: &[u8])
    ensures { out.new ≡ sets out.old at s.now }
{
    // std's iterators have no code that the program of all libraries can name.
    for i in 0..s.len() {
        put_byte(out, at, i, s[i]);
    }
}
