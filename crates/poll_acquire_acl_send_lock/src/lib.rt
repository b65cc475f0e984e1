// The send lock of a link is taken.
#![tactic(auto)]

ghost use Rattle.std.specs.Prelude.{◌≡◌, refl};
ghost use Rattle.model.specs.Find.{by_live, fits};
ghost use Rattle.model.specs.Link.{poll_acquire_acl_send_lock, absent, local};
ghost use Rattle.model.specs.Calls.{run, on_link};
ghost use Rattle.model.proofs.Moved.{link_moved};
ghost use Rattle.table.specs.Answer.{outcome_of};
ghost use Rattle.poll_acquire_acl_send_lock.specs.Answer.{lock_values};

use refusal::Refusal;
use rule::Rule;
use slot::{AclSendLock, ConnectionManager, ConnectionStorage, Woken};
use slot_call::{Local, SlotCall, TableView};
use table::Outcome;

#[derive(Clone, Copy)]
pub struct PollAcquireAclSendLockCall {
    pub handle: u16,
}

impl SlotCall for PollAcquireAclSendLockCall {
    type Gives = AclSendLock;

    ghost values = { lock_values };

    ghost call = { λ c. on_link poll_acquire_acl_send_lock c.handle };

    ghost test = { λ c. fits by_live c.handle };

    ghost none = { λ c v. absent poll_acquire_acl_send_lock v.default_att_mtu };

    ghost done = { λ c v i s. local poll_acquire_acl_send_lock v.default_att_mtu i s };

    ghost runs = { λ c t. refl };

    ghost moves = { λ c v i s. link_moved poll_acquire_acl_send_lock v.default_att_mtu i v.pool.free s };

    fn rule(&self) -> Rule {
        Rule::Live(self.handle)
    }

    fn absent(&self, _view: TableView) -> Result<AclSendLock, Refusal> {
        Err(Refusal::NotFound)
    }

    // The lock carries the slot's index and life, by which it is given back.
    fn at(&self, _view: TableView, i: usize, s: ConnectionStorage) -> Local<AclSendLock> {
        let mut slot = s;
        if s.acl_send_locked {
            slot.blocked_sends = s.blocked_sends.wrapping_add(1);
            return slot_call::unshared(Err(Refusal::Pending), Woken::Nobody, slot);
        }
        slot.acl_send_locked = true;
        let lock = AclSendLock {
            handle: s.handle,
            index: i,
            life: s.life,
        };
        slot_call::unshared(Ok(lock), Woken::Nobody, slot)
    }
}

pub fn poll_acquire_acl_send_lock(t: ConnectionManager, handle: u16) -> Outcome<AclSendLock>
    ensures { outcome_of lock_values result ≡ run (on_link poll_acquire_acl_send_lock handle) t }
{
    slot_call::resolve(t, &PollAcquireAclSendLockCall { handle })
}
