// A file of peer records: whether it is one, and whose record is in force for a role.
#![tactic(auto)]

ghost use Rattle.std.specs.Prelude.{◌≡◌, ◌<◌, ◌*◌};
ghost use Rattle.model.specs.Calls.{among};
ghost use Rattle.peer_records.specs.Below.{all_below};
ghost use Rattle.peer_records.specs.Format.{u32_at, peer_at, record_of, record_at as record_in, count_in, pair_fits, is_file, record_fits, records_fit};
ghost use Rattle.peer_records.specs.Force.{peers_in};
ghost use Rattle.peer_records.specs.Latest.{newer as newer_of, latest as latest_of};

use slot::{Address, BdAddr, LeConnRole};

// What stands in a record of the form that is known here.
#[derive(Clone, Copy)]
struct PeerRecord {
    peer: Address,
    serial: u32,
    // The byte as it stands: one that is no role is refused with 23, so it is read before it is one.
    role: u8,
}

// ---- the pairs

// Whether no pair reaches outside the file and no record starts before the end of the one ahead: of n pairs, the file's count.
fn pairs_fit(s: &[u8], n: u16) -> bool
    requires { n ≡ count_in s.now }
    ensures { result ≡ all_below (pair_fits s.now) n }
{
    let mut ahead: usize = 2 + 4 * (n as usize);
    for i in 0..n {
        let place = 2 + 4 * (i as usize);
        let offset = wire::u16_at(s, place);
        let size = wire::u16_at(s, place + 2);
        let start = offset as usize;
        if start < ahead {
            return false;
        }
        let end = start + (size as usize);
        if s.len() < end {
            return false;
        }
        ahead = end;
    }
    true
}

// 22 where it is false.
pub fn is_file(s: &[u8]) -> bool
    ensures { result ≡ is_file s.now }
{
    if s.len() < 2 {
        return false;
    }
    let n = wire::u16_at(s, 0);
    let end = 2 + 4 * (n as usize);
    if s.len() < end {
        return false;
    }
    pairs_fit(s, n)
}

// ---- the records

fn u32_at(s: &[u8], at: usize) -> u32
    requires { at < 65536 * 65536 }
    ensures { result ≡ u32_at s.now at }
{
    let low = wire::u16_at(s, at);
    let high = wire::u16_at(s, at + 2);
    (low as u32) + 65536 * (high as u32)
}

fn peer_at(s: &[u8], at: u16) -> Address
    ensures { result ≡ peer_at s.now at }
{
    let at = at as usize;
    Address {
        kind: wire::byte_at(s, at),
        addr: BdAddr(
            wire::byte_at(s, at + 1),
            wire::byte_at(s, at + 2),
            wire::byte_at(s, at + 3),
            wire::byte_at(s, at + 4),
            wire::byte_at(s, at + 5),
            wire::byte_at(s, at + 6),
        ),
    }
}

fn record_of(s: &[u8], at: u16) -> PeerRecord
    ensures { result ≡ record_of s.now at }
{
    let start = at as usize;
    PeerRecord {
        peer: peer_at(s, at),
        serial: u32_at(s, start + 7),
        role: wire::byte_at(s, start + 11),
    }
}

// The record i; one of another length is of a newer form and passed over.
fn record_at(s: &[u8], i: u16) -> Option<PeerRecord>
    ensures { result ≡ record_in s.now i }
{
    let place = 2 + 4 * (i as usize);
    let size = wire::u16_at(s, place + 2);
    if size == 14 {
        let offset = wire::u16_at(s, place);
        return Some(record_of(s, offset));
    }
    None
}

fn record_fits(r: Option<PeerRecord>) -> bool
    ensures { result ≡ record_fits r }
{
    let Some(r) = r else {
        return true;
    };
    if 1 < r.role {
        return false;
    }
    r.peer.kind <= 1
}

// 23 where it is false.
pub fn records_fit(s: &[u8]) -> bool
    ensures { result ≡ records_fit s.now }
{
    let n = wire::u16_at(s, 0);
    for i in 0..n {
        let r = record_at(s, i);
        if !record_fits(r) {
            return false;
        }
    }
    true
}

// ---- the record in force

// The better of the best so far and a later record: of a peer's records the one with the higher serial, of equal ones the later.
fn newer(best: Option<PeerRecord>, later: Option<PeerRecord>, peer: Address) -> Option<PeerRecord>
    ensures { result ≡ newer_of best later peer }
{
    let Some(r) = later else {
        return best;
    };
    if !rule::same_address(r.peer, peer) {
        return best;
    }
    let Some(b) = best else {
        return later;
    };
    if r.serial < b.serial {
        return best;
    }
    later
}

// The record in force of a peer, in one pass over the file.
fn latest(s: &[u8], peer: Address) -> Option<PeerRecord>
    ensures { result ≡ latest_of s.now peer (count_in s.now) }
{
    let n = wire::u16_at(s, 0);
    let mut best = None;
    for i in 0..n {
        let r = record_at(s, i);
        best = newer(best, r, peer);
    }
    best
}

// Whether a peer is one of those whose record in force is for the role.
pub fn in_force(s: &[u8], role: LeConnRole, peer: Address) -> bool
    ensures { result ≡ among (peers_in s.now role) peer }
{
    let Some(r) = latest(s, peer) else {
        return false;
    };
    r.role == u8::from(role)
}
