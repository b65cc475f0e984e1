// An indication's confirmation is waited for.
#![tactic(auto)]

ghost use Rattle.std.specs.Prelude.{◌≡◌, refl};
ghost use Rattle.model.specs.Answer.{no_value};
ghost use Rattle.model.specs.Find.{by_index, fits};
ghost use Rattle.model.specs.Link.{wait_indication_confirmation, absent, local};
ghost use Rattle.model.specs.Calls.{run, on_link};
ghost use Rattle.model.proofs.Moved.{link_moved};
ghost use Rattle.table.specs.Answer.{outcome_of};

use refusal::Refusal;
use rule::Rule;
use slot::{ConnectionManager, ConnectionStorage, Woken};
use slot_call::{Local, SlotCall, TableView};
use table::Outcome;

#[derive(Clone, Copy)]
pub struct WaitIndicationConfirmationCall {
    pub index: u8,
}

impl SlotCall for WaitIndicationConfirmationCall {
    type Gives = ();

    ghost values = { no_value };

    ghost call = { λ c. on_link wait_indication_confirmation c.index };

    ghost test = { λ c. fits by_index c.index };

    ghost none = { λ c v. absent wait_indication_confirmation v.default_att_mtu };

    ghost done = { λ c v i s. local wait_indication_confirmation v.default_att_mtu i s };

    ghost runs = { λ c t. refl };

    ghost moves = { λ c v i s. link_moved wait_indication_confirmation v.default_att_mtu i v.pool.free s };

    fn rule(&self) -> Rule {
        Rule::Index(self.index as usize)
    }

    fn absent(&self, _view: TableView) -> Result<(), Refusal> {
        Err(Refusal::Index)
    }

    // A confirmation counts in any state, so it is looked at first.
    fn at(&self, _view: TableView, _i: usize, s: ConnectionStorage) -> Local<()> {
        if s.indication_cfm_received {
            let mut slot = s;
            slot.indication_cfm_received = false;
            return slot_call::unshared(Ok(()), Woken::Nobody, slot);
        }
        if s.state.is_open() {
            return slot_call::unshared(Err(Refusal::Pending), Woken::Nobody, s);
        }
        slot_call::unshared(Err(Refusal::Disconnected), Woken::Nobody, s)
    }
}

pub fn wait_indication_confirmation(t: ConnectionManager, index: u8) -> Outcome<()>
    ensures { outcome_of no_value result ≡ run (on_link wait_indication_confirmation index) t }
{
    slot_call::resolve(t, &WaitIndicationConfirmationCall { index })
}
