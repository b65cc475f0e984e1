// A link has one reference more.
#![tactic(auto)]

ghost use Rattle.std.specs.Prelude.{◌≡◌, refl};
ghost use Rattle.model.specs.Answer.{no_value};
ghost use Rattle.model.specs.Find.{by_index, fits};
ghost use Rattle.model.specs.Link.{inc_ref, absent, local};
ghost use Rattle.model.specs.Calls.{run, on_link};
ghost use Rattle.model.proofs.Moved.{link_moved};
ghost use Rattle.table.specs.Answer.{outcome_of};

use refusal::Refusal;
use rule::Rule;
use slot::{ConnectionManager, ConnectionStorage, Woken};
use slot_call::{Local, SlotCall, TableView};
use table::Outcome;

#[derive(Clone, Copy)]
pub struct IncRefCall {
    pub index: u8,
}

impl SlotCall for IncRefCall {
    type Gives = ();

    ghost values = { no_value };

    ghost call = { λ c. on_link inc_ref c.index };

    ghost test = { λ c. fits by_index c.index };

    ghost none = { λ c v. absent inc_ref v.default_att_mtu };

    ghost done = { λ c v i s. local inc_ref v.default_att_mtu i s };

    ghost runs = { λ c t. refl };

    ghost moves = { λ c v i s. link_moved inc_ref v.default_att_mtu i v.pool.free s };

    fn rule(&self) -> Rule {
        Rule::Index(self.index as usize)
    }

    fn absent(&self, _view: TableView) -> Result<(), Refusal> {
        Err(Refusal::Index)
    }

    fn at(&self, _view: TableView, _i: usize, s: ConnectionStorage) -> Local<()> {
        if s.refcount == 255 {
            return slot_call::unshared(Err(Refusal::Refs), Woken::Nobody, s);
        }
        let mut slot = s;
        slot.refcount = s.refcount + 1;
        slot_call::unshared(Ok(()), Woken::Nobody, slot)
    }
}

pub fn inc_ref(t: ConnectionManager, index: u8) -> Outcome<()>
    ensures { outcome_of no_value result ≡ run (on_link inc_ref index) t }
{
    slot_call::resolve(t, &IncRefCall { index })
}
