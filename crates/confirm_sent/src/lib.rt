// The radio has sent packets of a link: its credits come back.
#![tactic(auto)]

ghost use Rattle.std.specs.Prelude.{◌≡◌, refl};
ghost use Rattle.model.specs.Find.{by_live, fits};
ghost use Rattle.model.specs.Answer.{no_value};
ghost use Rattle.model.specs.Link.{confirm_sent, absent, local};
ghost use Rattle.model.specs.Calls.{run, on_link};
ghost use Rattle.model.proofs.Moved.{link_moved};
ghost use Rattle.table.specs.Answer.{outcome_of};

use refusal::Refusal;
use rule::Rule;
use slot::{ConnectionManager, ConnectionStorage, Woken};
use slot_call::{Local, SlotCall, TableView};
use table::Outcome;

#[derive(Clone, Copy)]
pub struct ConfirmSentCall {
    pub handle: u16,
    pub packets: u32,
}

impl SlotCall for ConfirmSentCall {
    type Gives = ();

    ghost values = { no_value };

    ghost call = { λ c. on_link (confirm_sent c.packets) c.handle };

    ghost test = { λ c. fits by_live c.handle };

    ghost none = { λ c v. absent (confirm_sent c.packets) v.default_att_mtu };

    ghost done = { λ c v i s. local (confirm_sent c.packets) v.default_att_mtu i s };

    ghost runs = { λ c t. refl };

    ghost moves = { λ c v i s. link_moved (confirm_sent c.packets) v.default_att_mtu i v.pool.free s };

    fn rule(&self) -> Rule {
        Rule::Live(self.handle)
    }

    fn absent(&self, _view: TableView) -> Result<(), Refusal> {
        Err(Refusal::NotFound)
    }

    fn at(&self, _view: TableView, i: usize, s: ConnectionStorage) -> Local<()> {
        let sum = (s.link_credits as u64) + (self.packets as u64);
        if 4294967295 < sum {
            return slot_call::unshared(Err(Refusal::Credits), Woken::Nobody, s);
        }
        let mut slot = s;
        slot.link_credits = sum as u32;
        slot_call::unshared(Ok(()), Woken::LinkCredit(i), slot)
    }
}

pub fn confirm_sent(t: ConnectionManager, handle: u16, packets: u32) -> Outcome<()>
    ensures { outcome_of no_value result ≡ run (on_link (confirm_sent packets) handle) t }
{
    slot_call::resolve(t, &ConfirmSentCall { handle, packets })
}
