// A disconnect request is under way: its ticket is confirmed.
#![tactic(auto)]

ghost use Rattle.std.specs.Prelude.{◌≡◌, refl};
ghost use Rattle.model.specs.Find.{by_index, fits};
ghost use Rattle.model.specs.Link.{confirm, absent, local};
ghost use Rattle.model.specs.Calls.{run, on_link};
ghost use Rattle.model.proofs.Moved.{link_moved};
ghost use Rattle.table.specs.Answer.{outcome_of};
ghost use Rattle.slot_call.specs.Answer.{ended_values};

use refusal::Refusal;
use rule::Rule;
use slot::{ConnectionManager, ConnectionStorage, DisconnectRequest, Woken};
use slot_call::{Ended, Local, SlotCall, TableView};
use state::ConnectionState;
use table::Outcome;

#[derive(Clone, Copy)]
pub struct ConfirmCall {
    pub ticket: DisconnectRequest,
}

impl SlotCall for ConfirmCall {
    type Gives = Ended;

    ghost values = { ended_values };

    ghost call = { λ c. on_link (confirm c.ticket.handle c.ticket.life c.ticket.reason) c.ticket.index };

    ghost test = { λ c. fits by_index c.ticket.index };

    ghost none = { λ c v. absent (confirm c.ticket.handle c.ticket.life c.ticket.reason) v.default_att_mtu };

    ghost done = { λ c v i s. local (confirm c.ticket.handle c.ticket.life c.ticket.reason) v.default_att_mtu i s };

    ghost runs = { λ c t. refl };

    ghost moves = { λ c v i s. link_moved (confirm c.ticket.handle c.ticket.life c.ticket.reason) v.default_att_mtu i v.pool.free s };

    fn rule(&self) -> Rule {
        Rule::Index(self.ticket.index)
    }

    fn absent(&self, _view: TableView) -> Result<Ended, Refusal> {
        Err(Refusal::Index)
    }

    // The life is looked at before the state. The ticket's reason is taken, not the slot's. The ticket's handle is not looked at.
    fn at(&self, _view: TableView, _i: usize, s: ConnectionStorage) -> Local<Ended> {
        if self.ticket.life != s.life {
            return slot_call::unshared(Ok(Ended::Stale), Woken::Nobody, s);
        }
        if s.state.is_requesting() {
            let slot = s.with_state(ConnectionState::Disconnecting(self.ticket.reason));
            return slot_call::unshared(Ok(Ended::Done), Woken::Nobody, slot);
        }
        slot_call::unshared(Ok(Ended::Done), Woken::Nobody, s)
    }
}

pub fn confirm(t: ConnectionManager, ticket: DisconnectRequest) -> Outcome<Ended>
    ensures { outcome_of ended_values result ≡ run (on_link (confirm ticket.handle ticket.life ticket.reason) ticket.index) t }
{
    slot_call::resolve(t, &ConfirmCall { ticket })
}
