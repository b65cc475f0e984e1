// What is left of a grant goes back to its link.
#![tactic(auto)]

ghost use Rattle.std.specs.Prelude.{◌≡◌, refl};
ghost use Rattle.model.specs.Find.{by_index, fits};
ghost use Rattle.model.specs.Link.{grant_end, grant_ended, absent, local};
ghost use Rattle.model.specs.Calls.{run, on_link};
ghost use Rattle.model.proofs.Moved.{link_moved};
ghost use Rattle.table.specs.Answer.{outcome_of};
ghost use Rattle.slot_call.specs.Answer.{local_of, ended_values};

use refusal::Refusal;
use rule::Rule;
use slot::{ConnectionManager, ConnectionStorage, PacketGrant, Woken};
use slot_call::{Ended, Local, SlotCall, TableView};
use table::Outcome;

// A grant with nothing left gives nothing back and wakes nobody.
fn give_back(packets: u32, i: usize, s: ConnectionStorage) -> Local<Ended>
    ensures { local_of ended_values result ≡ grant_ended packets i s }
{
    if packets == 0 {
        return slot_call::unshared(Ok(Ended::Done), Woken::Nobody, s);
    }
    if packets > u32::MAX - s.link_credits {
        return slot_call::unshared(Err(Refusal::Credits), Woken::Nobody, s);
    }
    let mut slot = s;
    slot.link_credits += packets;
    slot_call::unshared(Ok(Ended::Done), Woken::LinkCredit(i), slot)
}

#[derive(Clone, Copy)]
pub struct GrantEndCall {
    pub grant: PacketGrant,
}

impl SlotCall for GrantEndCall {
    type Gives = Ended;

    ghost values = { ended_values };

    ghost call = { λ c. on_link (grant_end c.grant.handle c.grant.life c.grant.packets) c.grant.index };

    ghost test = { λ c. fits by_index c.grant.index };

    ghost none = { λ c v. absent (grant_end c.grant.handle c.grant.life c.grant.packets) v.default_att_mtu };

    ghost done = { λ c v i s. local (grant_end c.grant.handle c.grant.life c.grant.packets) v.default_att_mtu i s };

    ghost runs = { λ c t. refl };

    ghost moves = { λ c v i s. link_moved (grant_end c.grant.handle c.grant.life c.grant.packets) v.default_att_mtu i v.pool.free s };

    fn rule(&self) -> Rule {
        Rule::Index(self.grant.index)
    }

    fn absent(&self, _view: TableView) -> Result<Ended, Refusal> {
        Err(Refusal::Index)
    }

    // The life is looked at before state and packets: a grant with none left can be stale too. The grant's handle is not looked at.
    fn at(&self, _view: TableView, i: usize, s: ConnectionStorage) -> Local<Ended> {
        if self.grant.life != s.life {
            return slot_call::unshared(Ok(Ended::Stale), Woken::Nobody, s);
        }
        if s.state.is_live() {
            return give_back(self.grant.packets, i, s);
        }
        slot_call::unshared(Ok(Ended::Done), Woken::Nobody, s)
    }
}

pub fn grant_end(t: ConnectionManager, grant: PacketGrant) -> Outcome<Ended>
    ensures { outcome_of ended_values result ≡ run (on_link (grant_end grant.handle grant.life grant.packets) grant.index) t }
{
    slot_call::resolve(t, &GrantEndCall { grant })
}
