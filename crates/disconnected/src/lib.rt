// The controller's report that a link is gone.
#![tactic(auto)]

ghost use Rattle.std.specs.Prelude.{◌≡◌, refl};
ghost use Rattle.model.specs.Answer.{no_value};
ghost use Rattle.model.specs.Find.{by_open, fits};
ghost use Rattle.model.specs.Link.{disconnected, absent, local};
ghost use Rattle.model.specs.Calls.{run, on_link};
ghost use Rattle.model.proofs.Moved.{link_moved};
ghost use Rattle.table.specs.Answer.{outcome_of};

use event_queue::ConnectionEvent;
use pool::Share;
use refusal::Refusal;
use rule::Rule;
use slot::{ConnectionManager, ConnectionStorage, Woken};
use slot_call::{Local, SlotCall, TableView};
use state::ConnectionState;
use table::Outcome;

#[derive(Clone, Copy)]
pub struct DisconnectedCall {
    pub handle: u16,
    pub reason: u8,
}

impl SlotCall for DisconnectedCall {
    type Gives = ();

    ghost values = { no_value };

    ghost call = { λ c. on_link (disconnected c.reason) c.handle };

    ghost test = { λ c. fits by_open c.handle };

    ghost none = { λ c v. absent (disconnected c.reason) v.default_att_mtu };

    ghost done = { λ c v i s. local (disconnected c.reason) v.default_att_mtu i s };

    ghost runs = { λ c t. refl };

    ghost moves = { λ c v i s. link_moved (disconnected c.reason) v.default_att_mtu i v.pool.free s };

    fn rule(&self) -> Rule {
        Rule::Open(self.handle)
    }

    fn absent(&self, _view: TableView) -> Result<(), Refusal> {
        Err(Refusal::NotFound)
    }

    // The references stay: whoever holds one still has the events to read. An event that meets a full queue is lost. The link's
    // packets go back to the pool.
    fn at(&self, _view: TableView, i: usize, s: ConnectionStorage) -> Local<()> {
        let mut slot = s.with_state(ConnectionState::Disconnected);
        slot.acl_send_locked = false;
        slot.indication_in_flight = false;
        slot.indication_cfm_received = false;
        slot.blocked_sends = 0;
        slot.pool_held = 0;
        let event = ConnectionEvent::Disconnected {
            reason: self.reason,
        };
        if let Err(_) = slot.events.push(event) {
            slot.lost = s.lost.wrapping_add(1);
        }
        Local {
            answer: Ok(()),
            woken: Woken::Link(i),
            slot,
            share: Share::Closes(s.pool_held),
        }
    }
}

pub fn disconnected(t: ConnectionManager, handle: u16, reason: u8) -> Outcome<()>
    ensures { outcome_of no_value result ≡ run (on_link (disconnected reason) handle) t }
{
    slot_call::resolve(t, &DisconnectedCall { handle, reason })
}
