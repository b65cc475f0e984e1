// Events of the radio written as bytes into a lent slice.
#![tactic(auto)]

ghost use Rattle.std.specs.Prelude.{◌≡◌, true};
ghost use Rattle.wire.specs.Wire.{write_reply, writing, written};
ghost use Rattle.hci.specs.declared.HciEvent.TheVariants as event;
ghost use Rattle.hci.specs.Format.{of_form, event_bytes};

use hci::{DisconnectionComplete, HciEvent, LeConnectionComplete, LeConnectionUpdateComplete};
use refusal::Refusal;

fn write_disconnection(d: DisconnectionComplete, out: &mut [u8]) -> Result<usize, Refusal>
    ensures reply { write_reply result ≡ writing true (event_bytes (event.DisconnectionComplete d)) out.old }
    ensures bytes { out.new ≡ written true (event_bytes (event.DisconnectionComplete d)) out.old }
{
    let bytes = [
        0x05,
        4,
        d.status,
        wire::low_byte(d.handle),
        wire::high_byte(d.handle),
        d.reason,
    ];
    wire::put(out, &bytes)
}

fn write_connection(c: LeConnectionComplete, out: &mut [u8]) -> Result<usize, Refusal>
    ensures reply { write_reply result ≡ writing true (event_bytes (event.LeConnectionComplete c)) out.old }
    ensures bytes { out.new ≡ written true (event_bytes (event.LeConnectionComplete c)) out.old }
{
    let a = c.peer_addr;
    let bytes = [
        0x3E,
        19,
        0x01,
        c.status,
        wire::low_byte(c.handle),
        wire::high_byte(c.handle),
        c.role,
        c.peer_addr_kind,
        a.0,
        a.1,
        a.2,
        a.3,
        a.4,
        a.5,
        wire::low_byte(c.conn_interval),
        wire::high_byte(c.conn_interval),
        wire::low_byte(c.peripheral_latency),
        wire::high_byte(c.peripheral_latency),
        wire::low_byte(c.supervision_timeout),
        wire::high_byte(c.supervision_timeout),
        c.central_clock_accuracy,
    ];
    wire::put(out, &bytes)
}

fn write_update(u: LeConnectionUpdateComplete, out: &mut [u8]) -> Result<usize, Refusal>
    ensures reply { write_reply result ≡ writing true (event_bytes (event.LeConnectionUpdateComplete u)) out.old }
    ensures bytes { out.new ≡ written true (event_bytes (event.LeConnectionUpdateComplete u)) out.old }
{
    let bytes = [
        0x3E,
        10,
        0x03,
        u.status,
        wire::low_byte(u.handle),
        wire::high_byte(u.handle),
        wire::low_byte(u.conn_interval),
        wire::high_byte(u.conn_interval),
        wire::low_byte(u.peripheral_latency),
        wire::high_byte(u.peripheral_latency),
        wire::low_byte(u.supervision_timeout),
        wire::high_byte(u.supervision_timeout),
    ];
    wire::put(out, &bytes)
}

// The values are of the form. An arm for each variant, with its own fields.
fn write_bytes(e: HciEvent, out: &mut [u8]) -> Result<usize, Refusal>
    ensures reply { write_reply result ≡ writing true (event_bytes e) out.old }
    ensures bytes { out.new ≡ written true (event_bytes e) out.old }
{
    match e {
        HciEvent::DisconnectionComplete(d) => write_disconnection(d, out),
        HciEvent::LeConnectionComplete(c) => write_connection(c, out),
        HciEvent::LeConnectionUpdateComplete(u) => write_update(u, out),
    }
}

// Writes a whole event, or nothing: where its values are no event's, and where the slice is too short.
pub fn write(e: HciEvent, out: &mut [u8]) -> Result<usize, Refusal>
    ensures reply { write_reply result ≡ writing (of_form e) (event_bytes e) out.old }
    ensures bytes { out.new ≡ written (of_form e) (event_bytes e) out.old }
{
    if !e.of_form() {
        return Err(Refusal::Packet);
    }
    write_bytes(e, out)
}
