// An HCI event run on the table, but for Number Of Completed Packets.
#![tactic(auto)]

ghost use Rattle.std.specs.Prelude.{◌≡◌, cond, []};
ghost use Rattle.std.proofs.Math.Option.{none, some};
ghost use Rattle.model.specs.Answer.{no_value};
ghost use Rattle.hci.specs.declared.HciEvent.TheVariants as event;
ghost use Rattle.hci.specs.Format.{of_form};
ghost use Rattle.messages.specs.Received.{run_all, only_reply, event_calls, peer_of, role_of, params_of, interval_of, timeout_of, updated_of, received_as};
ghost use Rattle.received.specs.Answer.{received_of};
ghost use Rattle.host_event.specs.Answer.{event_gives_values, new_link_of};

use connect::NewLink;
use event_queue::ConnectionEvent;
use hci::{DisconnectionComplete, HciEvent, LeConnectionComplete, LeConnectionUpdateComplete};
use received::{FromCall, Received};
use refusal::Refusal;
use slot::{Address, ConnParams, ConnectionManager, LeConnRole};

// The pairs of Number Of Completed Packets that were applied, and those that were skipped.
#[derive(Clone, Copy)]
pub struct Completed {
    pub applied: u8,
    pub skipped: u8,
}

// What an event gives: nothing, be it that its status runs no call, or the counts of its pairs.
#[derive(Clone, Copy)]
pub enum EventGives {
    Done,
    Completed(Completed),
}

impl FromCall<()> for EventGives {
    ghost values = { event_gives_values };

    ghost call_values = { no_value };

    fn from_call(_a: ()) -> Self {
        EventGives::Done
    }
}

// ---- Disconnection Complete

fn disconnection_complete(t: ConnectionManager, d: DisconnectionComplete) -> Received<EventGives>
    ensures { received_of event_gives_values result ≡ run_all only_reply (event_calls (event.DisconnectionComplete d)) t }
{
    if d.status != 0 {
        return received::idle(t, EventGives::Done);
    }
    let o = disconnected::disconnected(t, d.handle, d.reason);
    received::one(o)
}

// ---- LE Connection Complete

// No From: any byte but 0 is Peripheral, which holds of messages of the form alone.
fn role_of(role: u8) -> LeConnRole
    ensures { result ≡ role_of role }
{
    if role == 0 {
        return LeConnRole::Central;
    }
    LeConnRole::Peripheral
}

fn interval_of(units: u16) -> u64
    ensures { result ≡ interval_of units }
{
    (units as u64) * 1250
}

fn timeout_of(units: u16) -> u64
    ensures { result ≡ timeout_of units }
{
    (units as u64) * 10000
}

fn new_link(e: LeConnectionComplete) -> NewLink
    ensures { result ≡ new_link_of e }
{
    NewLink {
        handle: e.handle,
        peer: Address {
            kind: e.peer_addr_kind,
            addr: e.peer_addr,
        },
        role: role_of(e.role),
        params: ConnParams {
            conn_interval: interval_of(e.conn_interval),
            peripheral_latency: e.peripheral_latency,
            supervision_timeout: timeout_of(e.supervision_timeout),
        },
    }
}

#[tactic(auto, using(messages::proofs::Laws::runs_connect))]
fn connection_complete(t: ConnectionManager, c: LeConnectionComplete) -> Received<EventGives>
    ensures { received_of event_gives_values result ≡ run_all only_reply (event_calls (event.LeConnectionComplete c)) t }
{
    if c.status != 0 {
        return received::idle(t, EventGives::Done);
    }
    let o = connect::connect(t, new_link(c));
    received::one(o)
}

// ---- LE Connection Update Complete

fn params_updated(e: LeConnectionUpdateComplete) -> ConnectionEvent
    ensures { result ≡ updated_of e }
{
    ConnectionEvent::ConnectionParamsUpdated {
        conn_interval: interval_of(e.conn_interval),
        peripheral_latency: e.peripheral_latency,
        supervision_timeout: timeout_of(e.supervision_timeout),
    }
}

fn connection_update_complete(
    t: ConnectionManager,
    u: LeConnectionUpdateComplete,
) -> Received<EventGives>
    ensures { received_of event_gives_values result ≡ run_all only_reply (event_calls (event.LeConnectionUpdateComplete u)) t }
{
    if u.status != 0 {
        return received::idle(t, EventGives::Done);
    }
    let o = post_handle_event::post_handle_event(t, u.handle, params_updated(u));
    received::one(o)
}

// ---- any of them

// An arm for each variant, with its own fields.
fn run_event(t: ConnectionManager, e: HciEvent) -> Received<EventGives>
    ensures { received_of event_gives_values result ≡ run_all only_reply (event_calls e) t }
{
    match e {
        HciEvent::DisconnectionComplete(d) => disconnection_complete(t, d),
        HciEvent::LeConnectionComplete(c) => connection_complete(t, c),
        HciEvent::LeConnectionUpdateComplete(u) => connection_update_complete(t, u),
    }
}

// 9 where the values are not of the form: a caller may have made them.
pub fn received_event(t: ConnectionManager, e: HciEvent) -> Received<EventGives>
    ensures { received_of event_gives_values result ≡ received_as (cond (of_form e) (some e) none) none t }
{
    if e.of_form() {
        return run_event(t, e);
    }
    received::refused(Refusal::Packet, t)
}
