// A link gives its indication slot back.
#![tactic(auto)]

ghost use Rattle.std.specs.Prelude.{◌≡◌, refl};
ghost use Rattle.model.specs.Answer.{no_value};
ghost use Rattle.model.specs.Find.{by_index, fits};
ghost use Rattle.model.specs.Link.{release_indication_slot, absent, local};
ghost use Rattle.model.specs.Calls.{run, on_link};
ghost use Rattle.model.proofs.Moved.{link_moved};
ghost use Rattle.table.specs.Answer.{outcome_of};

use refusal::Refusal;
use rule::Rule;
use slot::{ConnectionManager, ConnectionStorage, Woken};
use slot_call::{Local, SlotCall, TableView};
use table::Outcome;

#[derive(Clone, Copy)]
pub struct ReleaseIndicationSlotCall {
    pub index: u8,
}

impl SlotCall for ReleaseIndicationSlotCall {
    type Gives = ();

    ghost values = { no_value };

    ghost call = { λ c. on_link release_indication_slot c.index };

    ghost test = { λ c. fits by_index c.index };

    ghost none = { λ c v. absent release_indication_slot v.default_att_mtu };

    ghost done = { λ c v i s. local release_indication_slot v.default_att_mtu i s };

    ghost runs = { λ c t. refl };

    ghost moves = { λ c v i s. link_moved release_indication_slot v.default_att_mtu i v.pool.free s };

    fn rule(&self) -> Rule {
        Rule::Index(self.index as usize)
    }

    fn absent(&self, _view: TableView) -> Result<(), Refusal> {
        Err(Refusal::Index)
    }

    // Both flags go off and the waiter is woken, in any state and whoever holds the slot.
    fn at(&self, _view: TableView, i: usize, s: ConnectionStorage) -> Local<()> {
        let mut slot = s;
        slot.indication_in_flight = false;
        slot.indication_cfm_received = false;
        slot_call::unshared(Ok(()), Woken::IndicationSlot(i), slot)
    }
}

pub fn release_indication_slot(t: ConnectionManager, index: u8) -> Outcome<()>
    ensures { outcome_of no_value result ≡ run (on_link release_indication_slot index) t }
{
    slot_call::resolve(t, &ReleaseIndicationSlotCall { index })
}
