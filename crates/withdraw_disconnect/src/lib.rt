// A disconnect request is called off.
#![tactic(auto)]

ghost use Rattle.std.specs.Prelude.{◌≡◌, refl};
ghost use Rattle.model.specs.Answer.{no_value};
ghost use Rattle.model.specs.Find.{by_index, fits};
ghost use Rattle.model.specs.Link.{withdraw_disconnect, absent, local};
ghost use Rattle.model.specs.Calls.{run, on_link};
ghost use Rattle.model.proofs.Moved.{link_moved};
ghost use Rattle.table.specs.Answer.{outcome_of};

use refusal::Refusal;
use rule::Rule;
use slot::{ConnectionManager, ConnectionStorage, Woken};
use slot_call::{Local, SlotCall, TableView};
use state::ConnectionState;
use table::Outcome;

#[derive(Clone, Copy)]
pub struct WithdrawDisconnectCall {
    pub index: u8,
}

impl SlotCall for WithdrawDisconnectCall {
    type Gives = ();

    ghost values = { no_value };

    ghost call = { λ c. on_link withdraw_disconnect c.index };

    ghost test = { λ c. fits by_index c.index };

    ghost none = { λ c v. absent withdraw_disconnect v.default_att_mtu };

    ghost done = { λ c v i s. local withdraw_disconnect v.default_att_mtu i s };

    ghost runs = { λ c t. refl };

    ghost moves = { λ c v i s. link_moved withdraw_disconnect v.default_att_mtu i v.pool.free s };

    fn rule(&self) -> Rule {
        Rule::Index(self.index as usize)
    }

    fn absent(&self, _view: TableView) -> Result<(), Refusal> {
        Err(Refusal::Index)
    }

    // The state is looked at before the references: in any other than a request nothing happens.
    fn at(&self, _view: TableView, _i: usize, s: ConnectionStorage) -> Local<()> {
        if !s.state.is_requesting() {
            return slot_call::unshared(Ok(()), Woken::Nobody, s);
        }
        if s.refcount == 0 {
            return slot_call::unshared(Err(Refusal::Unreferenced), Woken::Nobody, s);
        }
        let slot = s.with_state(ConnectionState::Connected);
        slot_call::unshared(Ok(()), Woken::Nobody, slot)
    }
}

pub fn withdraw_disconnect(t: ConnectionManager, index: u8) -> Outcome<()>
    ensures { outcome_of no_value result ≡ run (on_link withdraw_disconnect index) t }
{
    slot_call::resolve(t, &WithdrawDisconnectCall { index })
}
