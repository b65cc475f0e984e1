// An indication's confirmation has come.
#![tactic(auto)]

ghost use Rattle.std.specs.Prelude.{◌≡◌, refl};
ghost use Rattle.model.specs.Answer.{no_value};
ghost use Rattle.model.specs.Find.{by_live, fits};
ghost use Rattle.model.specs.Link.{signal_indication_confirmation, absent, local};
ghost use Rattle.model.specs.Calls.{run, on_link};
ghost use Rattle.model.proofs.Moved.{link_moved};
ghost use Rattle.table.specs.Answer.{outcome_of};

use refusal::Refusal;
use rule::Rule;
use slot::{ConnectionManager, ConnectionStorage, Woken};
use slot_call::{Local, SlotCall, TableView};
use table::Outcome;

#[derive(Clone, Copy)]
pub struct SignalIndicationConfirmationCall {
    pub handle: u16,
}

impl SlotCall for SignalIndicationConfirmationCall {
    type Gives = ();

    ghost values = { no_value };

    ghost call = { λ c. on_link signal_indication_confirmation c.handle };

    ghost test = { λ c. fits by_live c.handle };

    ghost none = { λ c v. absent signal_indication_confirmation v.default_att_mtu };

    ghost done = { λ c v i s. local signal_indication_confirmation v.default_att_mtu i s };

    ghost runs = { λ c t. refl };

    ghost moves = { λ c v i s. link_moved signal_indication_confirmation v.default_att_mtu i v.pool.free s };

    fn rule(&self) -> Rule {
        Rule::Live(self.handle)
    }

    // Where no slot fits, nothing is done and nothing is refused.
    fn absent(&self, _view: TableView) -> Result<(), Refusal> {
        Ok(())
    }

    fn at(&self, _view: TableView, i: usize, s: ConnectionStorage) -> Local<()> {
        let mut slot = s;
        slot.indication_cfm_received = true;
        slot_call::unshared(Ok(()), Woken::IndicationCfm(i), slot)
    }
}

pub fn signal_indication_confirmation(t: ConnectionManager, handle: u16) -> Outcome<()>
    ensures { outcome_of no_value result ≡ run (on_link signal_indication_confirmation handle) t }
{
    slot_call::resolve(t, &SignalIndicationConfirmationCall { handle })
}
