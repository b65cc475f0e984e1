// Numbers put into text, in decimal. Every function takes any argument, and answers the position behind; past the end nothing is
// written (`text`).
// A slice, a position and a separator stay arguments: a struct with a lent slice would owe each function a clause more (`text`).
#![tactic(auto)]

ghost use Rattle.std.specs.Prelude.{◌≡◌};
ghost use Rattle.text.specs.Text.{put_all, put_end};
ghost use Rattle.number_text.specs.Number.{digit_char, decimal_text, behind_text, numbers_text, bit_of};

// The last digit.
fn digit(n: u64) -> u8
    ensures { result ≡ digit_char n }
{
    48 + (n % 10) as u8
}

// A number in as few digits as it has.
#[tactic(auto, using(text::specs::Append::puts, crate::specs::Laws::digits))]
pub fn put_number(out: &mut [u8], at: usize, n: u64) -> usize
    ensures bytes { out.new ≡ put_all out.old at (decimal_text n) }
    ensures next { result ≡ put_end out.old at (decimal_text n) }
{
    if n < 10 {
        return text::put(out, at, digit(n));
    }
    let next = put_number(out, at, n / 10);
    text::put(out, next, digit(n))
}

// A number behind a separator.
#[tactic(auto, using(text::specs::Append::puts))]
pub fn put_behind(out: &mut [u8], at: usize, sep: u8, n: u64) -> usize
    ensures bytes { out.new ≡ put_all out.old at (behind_text sep n) }
    ensures next { result ≡ put_end out.old at (behind_text sep n) }
{
    let next = text::put(out, at, sep);
    put_number(out, next, n)
}

// Numbers, each behind a separator.
#[tactic(auto, using(text::specs::Append::puts, crate::specs::Laws::each_number))]
pub fn put_numbers(out: &mut [u8], at: usize, sep: u8, ns: &[u64]) -> usize
    ensures bytes { out.new ≡ put_all out.old at (numbers_text sep ns.now) }
    ensures next { result ≡ put_end out.old at (numbers_text sep ns.now) }
{
    let mut next = at;
    for i in 0..ns.len() {
        next = put_behind(out, next, sep, ns[i]);
    }
    next
}

// A flag as a number.
pub fn bit(is_set: bool) -> u64
    ensures { result ≡ bit_of is_set }
{
    is_set as u64
}

// A flag behind a separator.
pub fn put_flag(out: &mut [u8], at: usize, sep: u8, is_set: bool) -> usize
    ensures bytes { out.new ≡ put_all out.old at (behind_text sep (bit_of is_set)) }
    ensures next { result ≡ put_end out.old at (behind_text sep (bit_of is_set)) }
{
    put_behind(out, at, sep, bit(is_set))
}
