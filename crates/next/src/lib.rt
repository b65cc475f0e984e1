// The oldest event of a link's queue.
#![tactic(auto)]

ghost use Rattle.std.specs.Prelude.{◌≡◌, refl};
ghost use Rattle.model.specs.Answer.{event_values};
ghost use Rattle.model.specs.Find.{by_index, fits};
ghost use Rattle.model.specs.Link.{next as next_op, absent, local};
ghost use Rattle.model.specs.Calls.{run, on_link};
ghost use Rattle.model.proofs.Moved.{link_moved};
ghost use Rattle.table.specs.Answer.{outcome_of};

use event_queue::ConnectionEvent;
use refusal::Refusal;
use rule::Rule;
use slot::{ConnectionManager, ConnectionStorage, Woken};
use slot_call::{Local, SlotCall, TableView};
use table::Outcome;

#[derive(Clone, Copy)]
pub struct NextCall {
    pub index: u8,
}

impl SlotCall for NextCall {
    type Gives = ConnectionEvent;

    ghost values = { event_values };

    ghost call = { λ c. on_link next_op c.index };

    ghost test = { λ c. fits by_index c.index };

    ghost none = { λ c v. absent next_op v.default_att_mtu };

    ghost done = { λ c v i s. local next_op v.default_att_mtu i s };

    ghost runs = { λ c t. refl };

    ghost moves = { λ c v i s. link_moved next_op v.default_att_mtu i v.pool.free s };

    fn rule(&self) -> Rule {
        Rule::Index(self.index as usize)
    }

    fn absent(&self, _view: TableView) -> Result<ConnectionEvent, Refusal> {
        Err(Refusal::Index)
    }

    fn at(&self, _view: TableView, _i: usize, s: ConnectionStorage) -> Local<ConnectionEvent> {
        let mut slot = s;
        match slot.events.pop() {
            None => slot_call::unshared(Err(Refusal::Pending), Woken::Nobody, slot),
            Some(event) => slot_call::unshared(Ok(event), Woken::Nobody, slot),
        }
    }
}

pub fn next(t: ConnectionManager, index: u8) -> Outcome<ConnectionEvent>
    ensures { outcome_of event_values result ≡ run (on_link next_op index) t }
{
    slot_call::resolve(t, &NextCall { index })
}
