// Number Of Completed Packets, as bytes, run on the table: its pairs, in order.
// The table, the bytes and how many pairs they hold stay arguments of their own: a struct of them would only be taken apart again.
#![tactic(auto)]

ghost use Rattle.std.specs.Prelude.{◌≡◌, ◌<◌};
ghost use Rattle.std.proofs.Math.Option.{none};
ghost use Rattle.model.specs.Answer.{reply_of, no_value};
ghost use Rattle.completed_packets.specs.Format.{masked_pairs};
ghost use Rattle.completed_packets.specs.Read.{raw_pairs, completed_in};
ghost use Rattle.messages.specs.Received.{run_all, counts_reply, pair_calls, received_as};
ghost use Rattle.received.specs.Answer.{received_of};
ghost use Rattle.host_event.specs.Answer.{event_gives_values};
ghost use Rattle.host_pairs.specs.Pairs.{started, counting, confirmed_pair, confirmed_pairs};

use completed_packets::ConnHandleCompletedPackets;
use host_event::{Completed, EventGives};
use received::Received;
use refusal::Refusal;
use slot::ConnectionManager;
use woken_set::WokenSet;

// Where a run of pairs stands: the pairs applied and skipped so far, the waiters woken, the table.
#[derive(Clone, Copy)]
pub struct PairsRun {
    pub completed: Completed,
    pub woken: WokenSet,
    pub table: ConnectionManager,
}

// A pair that is refused with 2 or 7 is skipped; one with 8 is neither.
fn counted(c: Completed, answer: Result<(), Refusal>) -> Completed
    requires { (c.applied < 255) × (c.skipped < 255) }
    ensures { result ≡ counting c (reply_of no_value answer) }
{
    match answer {
        Ok(_) => Completed {
            applied: c.applied + 1,
            ..c
        },
        Err(Refusal::NotFound | Refusal::Credits) => Completed {
            skipped: c.skipped + 1,
            ..c
        },
        Err(_) => c,
    }
}

fn confirm_pair(run: PairsRun, p: ConnHandleCompletedPackets) -> PairsRun
    requires { (run.completed.applied < 255) × (run.completed.skipped < 255) }
    ensures { result ≡ confirmed_pair run p }
{
    let o = confirm_sent::confirm_sent(run.table, p.handle, p.num_completed_packets as u32);
    PairsRun {
        completed: counted(run.completed, o.answer),
        woken: run.woken.add(o.woken),
        table: o.table,
    }
}

fn confirm_pairs(t: ConnectionManager, s: &[u8], n: u8) -> PairsRun
    ensures { result ≡ confirmed_pairs (started t) (masked_pairs (raw_pairs s.now n 3)) }
{
    let mut run = PairsRun {
        completed: Completed {
            applied: 0,
            skipped: 0,
        },
        woken: WokenSet::new(),
        table: t,
    };
    for i in 0..n {
        run = confirm_pair(run, completed_packets::pair_in(s, i));
    }
    run
}

// The n pairs of the event; 8 first, also where there are none.
fn run_pairs(t: ConnectionManager, s: &[u8], n: u8) -> Received<EventGives>
    ensures { received_of event_gives_values result ≡ run_all counts_reply (pair_calls (masked_pairs (raw_pairs s.now n 3))) t }
{
    if !search::is_well_formed(&t) {
        return received::refused(Refusal::Setup, t);
    }
    let run = confirm_pairs(t, s, n);
    Received {
        answer: Ok(EventGives::Completed(run.completed)),
        woken: run.woken,
        table: run.table,
    }
}

// 9 where the bytes are no such event.
pub fn received_pairs(t: ConnectionManager, s: &[u8]) -> Received<EventGives>
    ensures { received_of event_gives_values result ≡ received_as none (completed_in s.now) t }
{
    match completed_packets::read(s) {
        None => received::refused(Refusal::Packet, t),
        Some(n) => run_pairs(t, s, n),
    }
}
