// The send lock of a link is given back.
#![tactic(auto)]

ghost use Rattle.std.specs.Prelude.{◌≡◌, refl};
ghost use Rattle.model.specs.Find.{by_index, fits};
ghost use Rattle.model.specs.Link.{unlock_acl_send, absent, local};
ghost use Rattle.model.specs.Calls.{run, on_link};
ghost use Rattle.model.proofs.Moved.{link_moved};
ghost use Rattle.table.specs.Answer.{outcome_of};
ghost use Rattle.slot_call.specs.Answer.{ended_values};

use refusal::Refusal;
use rule::Rule;
use slot::{AclSendLock, ConnectionManager, ConnectionStorage, Woken};
use slot_call::{Ended, Local, SlotCall, TableView};
use table::Outcome;

#[derive(Clone, Copy)]
pub struct UnlockAclSendCall {
    pub lock: AclSendLock,
}

impl SlotCall for UnlockAclSendCall {
    type Gives = Ended;

    ghost values = { ended_values };

    ghost call = { λ c. on_link (unlock_acl_send c.lock.handle c.lock.life) c.lock.index };

    ghost test = { λ c. fits by_index c.lock.index };

    ghost none = { λ c v. absent (unlock_acl_send c.lock.handle c.lock.life) v.default_att_mtu };

    ghost done = { λ c v i s. local (unlock_acl_send c.lock.handle c.lock.life) v.default_att_mtu i s };

    ghost runs = { λ c t. refl };

    ghost moves = { λ c v i s. link_moved (unlock_acl_send c.lock.handle c.lock.life) v.default_att_mtu i v.pool.free s };

    fn rule(&self) -> Rule {
        Rule::Index(self.lock.index)
    }

    fn absent(&self, _view: TableView) -> Result<Ended, Refusal> {
        Err(Refusal::Index)
    }

    // The life is looked at before the state: a lock can be stale on a closing link too. The lock's handle is not looked at.
    fn at(&self, _view: TableView, i: usize, s: ConnectionStorage) -> Local<Ended> {
        if self.lock.life != s.life {
            return slot_call::unshared(Ok(Ended::Stale), Woken::Nobody, s);
        }
        if s.state.is_live() && s.acl_send_locked {
            let mut slot = s;
            slot.acl_send_locked = false;
            return slot_call::unshared(Ok(Ended::Done), Woken::AclSendLock(i), slot);
        }
        slot_call::unshared(Ok(Ended::Done), Woken::Nobody, s)
    }
}

pub fn unlock_acl_send(t: ConnectionManager, lock: AclSendLock) -> Outcome<Ended>
    ensures { outcome_of ended_values result ≡ run (on_link (unlock_acl_send lock.handle lock.life) lock.index) t }
{
    slot_call::resolve(t, &UnlockAclSendCall { lock })
}
