// Events of the radio read from bytes, but for Number Of Completed Packets, which `completed_packets` reads.
#![tactic(auto)]

ghost use Rattle.std.specs.Prelude.{◌≡◌, cond};
ghost use Rattle.std.proofs.Math.Option.{none, some};
ghost use Rattle.wire.specs.Wire.{u16_at};
ghost use Rattle.hci.specs.declared.HciEvent.TheVariants as event;
ghost use Rattle.hci.specs.Format.{of_form, handle_bits, masked};
ghost use Rattle.hci.specs.Read.{is_event, is_le_event, addr_at, disconnection_at, connection_at, update_at, event_in, event_reply};
ghost use Rattle.hci_read.specs.Answer.{event_of, read_reply};

use hci::{DisconnectionComplete, HciEvent, LeConnectionComplete, LeConnectionUpdateComplete};
use slot::BdAddr;

// A handle is the low 12 bits of two bytes.
fn handle_at(s: &[u8], at: usize) -> u16
    ensures { result ≡ handle_bits (u16_at s.now at) }
{
    wire::u16_at(s, at) % 4096
}

// The address of a connection.
fn addr_at(s: &[u8]) -> BdAddr
    ensures { result ≡ addr_at s.now 8 }
{
    BdAddr(
        wire::byte_at(s, 8),
        wire::byte_at(s, 9),
        wire::byte_at(s, 10),
        wire::byte_at(s, 11),
        wire::byte_at(s, 12),
        wire::byte_at(s, 13),
    )
}

fn disconnection_at(s: &[u8]) -> HciEvent
    ensures { result ≡ masked (event.DisconnectionComplete (disconnection_at s.now)) }
{
    HciEvent::DisconnectionComplete(DisconnectionComplete {
        status: wire::byte_at(s, 2),
        handle: handle_at(s, 3),
        reason: wire::byte_at(s, 5),
    })
}

fn connection_at(s: &[u8]) -> HciEvent
    ensures { result ≡ masked (event.LeConnectionComplete (connection_at s.now)) }
{
    HciEvent::LeConnectionComplete(LeConnectionComplete {
        status: wire::byte_at(s, 3),
        handle: handle_at(s, 4),
        role: wire::byte_at(s, 6),
        peer_addr_kind: wire::byte_at(s, 7),
        peer_addr: addr_at(s),
        conn_interval: wire::u16_at(s, 14),
        peripheral_latency: wire::u16_at(s, 16),
        supervision_timeout: wire::u16_at(s, 18),
        central_clock_accuracy: wire::byte_at(s, 20),
    })
}

fn update_at(s: &[u8]) -> HciEvent
    ensures { result ≡ masked (event.LeConnectionUpdateComplete (update_at s.now)) }
{
    HciEvent::LeConnectionUpdateComplete(LeConnectionUpdateComplete {
        status: wire::byte_at(s, 3),
        handle: handle_at(s, 4),
        conn_interval: wire::u16_at(s, 6),
        peripheral_latency: wire::u16_at(s, 8),
        supervision_timeout: wire::u16_at(s, 10),
    })
}

// An event with this code, a byte of the wire, and n bytes of parameters, and nothing behind them.
fn is_event(s: &[u8], code: u8, n: u8) -> bool
    ensures { result ≡ is_event code n s.now }
{
    s.len() == 2 + n as usize && wire::byte_at(s, 0) == code && wire::byte_at(s, 1) == n
}

fn is_le_event(s: &[u8], subevent: u8, n: u8) -> bool
    ensures { result ≡ is_le_event subevent n s.now }
{
    is_event(s, 0x3E, n) && wire::byte_at(s, 2) == subevent
}

fn checked(e: HciEvent) -> Option<HciEvent>
    ensures { event_of result ≡ cond (of_form e) (some e) none }
{
    if e.of_form() { Some(e) } else { None }
}

// The event that the bytes are, whatever the bytes.
pub fn read(s: &[u8]) -> Option<HciEvent>
    ensures event { event_of result ≡ event_in s.now }
    ensures reply { read_reply result ≡ event_reply (event_in s.now) }
{
    if is_event(s, 0x05, 4) {
        return checked(disconnection_at(s));
    }
    if is_le_event(s, 0x01, 19) {
        return checked(connection_at(s));
    }
    if is_le_event(s, 0x03, 10) {
        return checked(update_at(s));
    }
    None
}
