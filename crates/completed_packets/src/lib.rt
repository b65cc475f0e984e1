// Number Of Completed Packets: read, and one pair of it.
#![tactic(auto)]

ghost use Rattle.std.specs.Prelude.{◌≡◌, ◌+◌, ◌*◌};
ghost use Rattle.completed_packets.specs.Format.{handles_fit, masked_pair, masked_pairs};
ghost use Rattle.completed_packets.specs.Read.{raw_pair_at, raw_pairs, is_completed, completed_in};
ghost use Rattle.completed_packets.specs.Answer.{completed_reply, count_reply, pair_reply, pair_of};

use limits::Field;

// One link's part of the event.
#[derive(Clone, Copy)]
pub struct ConnHandleCompletedPackets {
    pub handle: u16,
    pub num_completed_packets: u16,
}

// The event's code, and its two lengths: that of the parameters, which the number of pairs settles, and that of the whole.
fn is_completed(s: &[u8]) -> bool
    ensures { result ≡ is_completed s.now }
{
    if s.len() < 3 {
        return false;
    }
    let parameters = 1 + 4 * (s[2] as usize);
    s[0] == 0x13 && s[1] as usize == parameters && s.len() == 2 + parameters
}

// The pair at the place of pair i, with the 12 bits of its handle, for a caller that has read the event. A byte past the end
// counts as 0.
pub fn pair_in(s: &[u8], i: u8) -> ConnHandleCompletedPackets
    ensures { result ≡ masked_pair (raw_pair_at s.now (3 + 4 * i)) }
{
    let at = 3 + 4 * (i as usize);
    ConnHandleCompletedPackets {
        handle: wire::u16_at(s, at) % 4096,
        num_completed_packets: wire::u16_at(s, at + 2),
    }
}

// Whether the handles of the first n pairs are within limits.
fn handles_fit(s: &[u8], n: u8) -> bool
    ensures { result ≡ handles_fit (masked_pairs (raw_pairs s.now n 3)) }
{
    for i in 0..n {
        let pair = pair_in(s, i);
        if !limits::within(Field::Handle, pair.handle as usize) {
            return false;
        }
    }
    true
}

// The number of pairs of the event that the slice is, and nothing else; none where it is no such event.
pub fn read(s: &[u8]) -> Option<u8>
    ensures { completed_reply result ≡ count_reply (completed_in s.now) }
{
    if !is_completed(s) {
        return None;
    }
    let n = s[2];
    if !limits::within(Field::Pairs, n as usize) {
        return None;
    }
    if !handles_fit(s, n) {
        return None;
    }
    Some(n)
}

// The pair i of the event.
pub fn pair_at(s: &[u8], i: usize) -> Option<ConnHandleCompletedPackets>
    ensures { pair_reply result ≡ pair_of (completed_in s.now) i }
{
    let Some(n) = read(s) else {
        return None;
    };
    if i < (n as usize) {
        return Some(pair_in(s, i as u8));
    }
    None
}
