// The text of a slot. Every function takes any argument, and those that write answer the position behind; past the end nothing is
// written (`text`).
// A slice, a position and what is written stay arguments: a struct with a lent slice would owe each function a clause more (`text`).
#![tactic(auto)]

ghost use Rattle.std.specs.Prelude.{◌≡◌, [], ◌∷◌};
ghost use Rattle.state.specs.State.{reason_value};
ghost use Rattle.text.specs.Text.{put_all, put_end, hex_text};
ghost use Rattle.slot_text.specs.Slot.{state_text, address_text, peer_text, subrating_text, mtu_text, counts_text, slot_text};

use number_text::{bit, put_behind, put_numbers};
use slot::{Address, ConnectionStorage, SubratingParams};
use state::{ConnectionState, DisconnectReason};

// A letter, and the reason in hexadecimal.
#[tactic(auto, using(text::specs::Append::puts))]
fn put_reason(out: &mut [u8], at: usize, letter: u8, r: DisconnectReason) -> usize
    ensures bytes { out.new ≡ put_all out.old at (letter ∷ hex_text (reason_value r ∷ [])) }
    ensures next { result ≡ put_end out.old at (letter ∷ hex_text (reason_value r ∷ [])) }
{
    let n = text::put(out, at, letter);
    text::put_hex(out, n, &[u8::from(r)])
}

// A letter for each state: an arm for each variant of a closed enum, with its own fields.
#[tactic(auto, using(text::specs::Append::puts), unfolding(crate::specs::Slot::state_text))]
fn put_state(out: &mut [u8], at: usize, s: ConnectionState) -> usize
    ensures bytes { out.new ≡ put_all out.old at (state_text s) }
    ensures next { result ≡ put_end out.old at (state_text s) }
{
    match s {
        ConnectionState::Disconnected => text::put(out, at, b'D'),
        ConnectionState::DisconnectRequest(r) => put_reason(out, at, b'R', r),
        ConnectionState::Disconnecting(r) => put_reason(out, at, b'G', r),
        ConnectionState::Connecting => text::put(out, at, b'C'),
        ConnectionState::Connected => text::put(out, at, b'O'),
    }
}

// The most significant byte, the last on the wire, is written first.
#[tactic(auto, using(text::specs::Append::puts))]
fn put_address(out: &mut [u8], at: usize, peer: Address) -> usize
    ensures bytes { out.new ≡ put_all out.old at (address_text peer) }
    ensures next { result ≡ put_end out.old at (address_text peer) }
{
    let a = peer.addr;
    let n = put_behind(out, at, b' ', peer.kind as u64);
    let n = text::put(out, n, b' ');
    text::put_hex(out, n, &[a.5, a.4, a.3, a.2, a.1, a.0])
}

// Who is at the other end, and by which parameters.
#[tactic(auto, using(text::specs::Append::puts))]
fn put_peer(out: &mut [u8], at: usize, s: ConnectionStorage) -> usize
    ensures bytes { out.new ≡ put_all out.old at (peer_text s) }
    ensures next { result ≡ put_end out.old at (peer_text s) }
{
    let p = s.params;
    let n = put_numbers(
        out,
        at,
        b' ',
        &[s.handle as u64, s.life as u64, u8::from(s.role) as u64],
    );
    let n = put_address(out, n, s.peer_identity);
    put_numbers(
        out,
        n,
        b' ',
        &[
            p.conn_interval,
            p.peripheral_latency as u64,
            p.supervision_timeout,
        ],
    )
}

#[tactic(auto, using(text::specs::Append::puts), unfolding(crate::specs::Slot::subrating_text))]
fn put_subrating(out: &mut [u8], at: usize, subrating: Option<SubratingParams>) -> usize
    ensures bytes { out.new ≡ put_all out.old at (subrating_text subrating) }
    ensures next { result ≡ put_end out.old at (subrating_text subrating) }
{
    let Some(p) = subrating else {
        return text::put_all(out, at, b" -");
    };
    let n = put_behind(out, at, b' ', p.subrate_factor as u64);
    put_behind(out, n, b',', p.continuation_number as u64)
}

fn put_mtu(out: &mut [u8], at: usize, mtu: u16) -> usize
    ensures bytes { out.new ≡ put_all out.old at (mtu_text mtu) }
    ensures next { result ≡ put_end out.old at (mtu_text mtu) }
{
    if mtu == 0 {
        return text::put_all(out, at, b" -");
    }
    put_behind(out, at, b' ', mtu as u64)
}

fn put_counts(out: &mut [u8], at: usize, s: ConnectionStorage) -> usize
    ensures bytes { out.new ≡ put_all out.old at (counts_text s) }
    ensures next { result ≡ put_end out.old at (counts_text s) }
{
    put_numbers(
        out,
        at,
        b' ',
        &[
            s.link_credits as u64,
            bit(s.acl_send_locked),
            s.refcount as u64,
            s.blocked_sends as u64,
            s.lost as u64,
            s.pool_held as u64,
            bit(s.indication_in_flight),
            bit(s.indication_cfm_received),
        ],
    )
}

// A slot's fields, with a space between.
#[tactic(auto, using(text::specs::Append::puts), unfolding(crate::specs::Slot::slot_text))]
pub fn put_slot(out: &mut [u8], at: usize, s: ConnectionStorage) -> usize
    ensures bytes { out.new ≡ put_all out.old at (slot_text s) }
    ensures next { result ≡ put_end out.old at (slot_text s) }
{
    let n = put_state(out, at, s.state);
    let n = put_peer(out, n, s);
    let n = put_subrating(out, n, s.subrating_params);
    let n = put_mtu(out, n, s.att_mtu);
    let n = put_counts(out, n, s);
    let n = text::put(out, n, b' ');
    event_text::put_queue(out, n, s.events)
}
