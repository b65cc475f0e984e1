// An event for a link: its parameters are stored, and it is queued.
#![tactic(auto)]

ghost use Rattle.std.specs.Prelude.{◌≡◌, refl};
ghost use Rattle.model.specs.Answer.{no_value};
ghost use Rattle.model.specs.Find.{by_connected, fits};
ghost use Rattle.model.specs.Link.{post_handle_event, absent, local, subrating_of, stored as stored_of};
ghost use Rattle.model.specs.Calls.{run, on_link};
ghost use Rattle.model.proofs.Moved.{link_moved};
ghost use Rattle.table.specs.Answer.{outcome_of};

use event_queue::ConnectionEvent;
use refusal::Refusal;
use rule::Rule;
use slot::{ConnParams, ConnectionManager, ConnectionStorage, SubratingParams, Woken};
use slot_call::{Local, SlotCall, TableView};
use table::Outcome;

// The pair only where the factor exceeds 1.
fn subrating_of(factor: u16, continuation: u16) -> Option<SubratingParams>
    ensures { result ≡ subrating_of factor continuation }
{
    if 1 < factor {
        return Some(SubratingParams {
            subrate_factor: factor,
            continuation_number: continuation,
        });
    }
    None
}

// The slot with the parameters and the pair that an event stores.
fn stored(event: ConnectionEvent, s: ConnectionStorage) -> ConnectionStorage
    ensures { result ≡ stored_of event s }
{
    match event {
        ConnectionEvent::ConnectionParamsUpdated {
            conn_interval,
            peripheral_latency,
            supervision_timeout,
        } => {
            let mut slot = s;
            // The pair holds for one interval.
            if conn_interval != s.params.conn_interval {
                slot.subrating_params = None;
            }
            slot.params = ConnParams {
                conn_interval,
                peripheral_latency,
                supervision_timeout,
            };
            slot
        }
        ConnectionEvent::SubratingParamsUpdated {
            subrate_factor,
            peripheral_latency,
            continuation_number,
            supervision_timeout,
        } => {
            let mut slot = s;
            slot.subrating_params = subrating_of(subrate_factor, continuation_number);
            slot.params.peripheral_latency = peripheral_latency;
            slot.params.supervision_timeout = supervision_timeout;
            slot
        }
        _ => s,
    }
}

#[derive(Clone, Copy)]
pub struct PostHandleEventCall {
    pub handle: u16,
    pub event: ConnectionEvent,
}

impl SlotCall for PostHandleEventCall {
    type Gives = ();

    ghost values = { no_value };

    ghost call = { λ c. on_link (post_handle_event c.event) c.handle };

    ghost test = { λ c. fits by_connected c.handle };

    ghost none = { λ c v. absent (post_handle_event c.event) v.default_att_mtu };

    ghost done = { λ c v i s. local (post_handle_event c.event) v.default_att_mtu i s };

    ghost runs = { λ c t. refl };

    ghost moves = { λ c v i s. link_moved (post_handle_event c.event) v.default_att_mtu i v.pool.free s };

    fn rule(&self) -> Rule {
        Rule::Connected(self.handle)
    }

    fn absent(&self, _view: TableView) -> Result<(), Refusal> {
        Err(Refusal::NotFound)
    }

    // The parameters are stored even where the queue has no room for the event, which is lost then.
    fn at(&self, _view: TableView, _i: usize, s: ConnectionStorage) -> Local<()> {
        let mut after = stored(self.event, s);
        if let Err(_) = after.events.push(self.event) {
            after.lost = after.lost.wrapping_add(1);
            return slot_call::unshared(Err(Refusal::OutOfMemory), Woken::Nobody, after);
        }
        slot_call::unshared(Ok(()), Woken::Nobody, after)
    }
}

pub fn post_handle_event(t: ConnectionManager, handle: u16, event: ConnectionEvent) -> Outcome<()>
    ensures { outcome_of no_value result ≡ run (on_link (post_handle_event event) handle) t }
{
    slot_call::resolve(t, &PostHandleEventCall { handle, event })
}
