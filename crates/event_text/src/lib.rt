// The text of an event and of a queue of events. Every function takes any argument, and answers the position behind; past the end
// nothing is written (`text`).
// A slice and a position stay two arguments: a struct of both would owe each function a clause more (`text`).
#![tactic(auto)]

ghost use Rattle.std.specs.Prelude.{◌≡◌};
ghost use Rattle.text.specs.Text.{put_all, put_end};
ghost use Rattle.event_text.specs.Event.{event_text, between_text, events_text, queue_text};

use event_queue::{ConnectionEvent, EventQueue};
use number_text::{put_number, put_numbers};

// An event's kind and numbers, with `sep` between them.
#[tactic(auto, using(text::specs::Append::puts), unfolding(crate::specs::Event::event_text))]
pub fn put_event(out: &mut [u8], at: usize, sep: u8, e: ConnectionEvent) -> usize
    ensures bytes { out.new ≡ put_all out.old at (event_text sep e) }
    ensures next { result ≡ put_end out.old at (event_text sep e) }
{
    match e {
        ConnectionEvent::Disconnected { reason } => {
            let n = put_number(out, at, 0);
            put_numbers(out, n, sep, &[reason as u64])
        }
        ConnectionEvent::PhyUpdated { tx_phy, rx_phy } => {
            let n = put_number(out, at, 1);
            put_numbers(
                out,
                n,
                sep,
                &[u8::from(tx_phy) as u64, u8::from(rx_phy) as u64],
            )
        }
        ConnectionEvent::ConnectionParamsUpdated {
            peripheral_latency,
            conn_interval,
            supervision_timeout,
        } => {
            let n = put_number(out, at, 2);
            let latency = peripheral_latency as u64;
            put_numbers(out, n, sep, &[conn_interval, latency, supervision_timeout])
        }
        ConnectionEvent::SubratingParamsUpdated {
            subrate_factor,
            peripheral_latency,
            continuation_number,
            supervision_timeout,
        } => {
            let n = put_number(out, at, 3);
            let factor = subrate_factor as u64;
            let latency = peripheral_latency as u64;
            let continuation = continuation_number as u64;
            put_numbers(
                out,
                n,
                sep,
                &[factor, latency, continuation, supervision_timeout],
            )
        }
        ConnectionEvent::DataLengthUpdated {
            max_tx_octets,
            max_tx_time,
            max_rx_octets,
            max_rx_time,
        } => {
            let n = put_number(out, at, 4);
            let tx_octets = max_tx_octets as u64;
            let tx_time = max_tx_time as u64;
            let rx_octets = max_rx_octets as u64;
            let rx_time = max_rx_time as u64;
            put_numbers(out, n, sep, &[tx_octets, tx_time, rx_octets, rx_time])
        }
        ConnectionEvent::ConnectionRateChanged {
            subrate_factor,
            peripheral_latency,
            continuation_number,
            conn_interval,
            supervision_timeout,
        } => {
            let n = put_number(out, at, 5);
            let factor = subrate_factor as u64;
            let latency = peripheral_latency as u64;
            let continuation = continuation_number as u64;
            put_numbers(
                out,
                n,
                sep,
                &[
                    conn_interval,
                    factor,
                    latency,
                    continuation,
                    supervision_timeout,
                ],
            )
        }
    }
}

// A `;` stands before every event but the oldest.
#[tactic(auto, using(text::specs::Append::puts))]
fn put_between(out: &mut [u8], at: usize, i: usize) -> usize
    ensures bytes { out.new ≡ put_all out.old at (between_text i) }
    ensures next { result ≡ put_end out.old at (between_text i) }
{
    if i == 0 {
        return at;
    }
    text::put(out, at, b';')
}

// The events without the brackets.
#[tactic(auto, using(text::specs::Append::puts, text::specs::Append::places))]
fn put_events(out: &mut [u8], at: usize, q: EventQueue) -> usize
    ensures bytes { out.new ≡ put_all out.old at (events_text q) }
    ensures next { result ≡ put_end out.old at (events_text q) }
{
    let mut n = at;
    for i in 0..4 {
        if q.len <= i {
            return n;
        }
        n = put_between(out, n, i);
        n = put_event(out, n, b',', q.entries[i]);
    }
    n
}

// A queue in brackets, oldest first.
#[tactic(auto, using(text::specs::Append::puts))]
pub fn put_queue(out: &mut [u8], at: usize, q: EventQueue) -> usize
    ensures bytes { out.new ≡ put_all out.old at (queue_text q) }
    ensures next { result ≡ put_end out.old at (queue_text q) }
{
    let n = text::put(out, at, b'[');
    let n = put_events(out, n, q);
    text::put(out, n, b']')
}
