// A link has one reference less.
#![tactic(auto)]

ghost use Rattle.std.specs.Prelude.{◌≡◌, refl};
ghost use Rattle.model.specs.Answer.{no_value};
ghost use Rattle.model.specs.Find.{by_index, fits};
ghost use Rattle.model.specs.Link.{dec_ref, absent, local};
ghost use Rattle.model.specs.Calls.{run, on_link};
ghost use Rattle.model.proofs.Moved.{link_moved};
ghost use Rattle.table.specs.Answer.{outcome_of};

use refusal::Refusal;
use rule::Rule;
use slot::{ConnectionManager, ConnectionStorage, Woken};
use slot_call::{Local, SlotCall, TableView};
use state::{ConnectionState, DisconnectReason};
use table::Outcome;

#[derive(Clone, Copy)]
pub struct DecRefCall {
    pub index: u8,
}

impl SlotCall for DecRefCall {
    type Gives = ();

    ghost values = { no_value };

    ghost call = { λ c. on_link dec_ref c.index };

    ghost test = { λ c. fits by_index c.index };

    ghost none = { λ c v. absent dec_ref v.default_att_mtu };

    ghost done = { λ c v i s. local dec_ref v.default_att_mtu i s };

    ghost runs = { λ c t. refl };

    ghost moves = { λ c v i s. link_moved dec_ref v.default_att_mtu i v.pool.free s };

    fn rule(&self) -> Rule {
        Rule::Index(self.index as usize)
    }

    fn absent(&self, _view: TableView) -> Result<(), Refusal> {
        Err(Refusal::Index)
    }

    fn at(&self, _view: TableView, _i: usize, s: ConnectionStorage) -> Local<()> {
        if s.refcount == 0 {
            return slot_call::unshared(Err(Refusal::Refs), Woken::Nobody, s);
        }
        let mut slot = s;
        slot.refcount = s.refcount - 1;
        // The last reference of a Connected slot is gone: it asks to be disconnected.
        if slot.refcount == 0 && s.state.is_connected() {
            slot.state = ConnectionState::DisconnectRequest(
                DisconnectReason::RemoteUserTerminatedConn,
            );
            return slot_call::unshared(Ok(()), Woken::Disconnect, slot);
        }
        slot_call::unshared(Ok(()), Woken::Nobody, slot)
    }
}

pub fn dec_ref(t: ConnectionManager, index: u8) -> Outcome<()>
    ensures { outcome_of no_value result ≡ run (on_link dec_ref index) t }
{
    slot_call::resolve(t, &DecRefCall { index })
}
