// A grant of packets, paid with credits of the link.
#![tactic(auto)]

ghost use Rattle.std.specs.Prelude.{◌≡◌, refl};
ghost use Rattle.model.specs.Find.{by_live, fits};
ghost use Rattle.model.specs.Link.{poll_request_to_send, absent, local};
ghost use Rattle.model.specs.Calls.{run, on_link, grant_values};
ghost use Rattle.model.proofs.Moved.{link_moved};
ghost use Rattle.table.specs.Answer.{outcome_of};

use refusal::Refusal;
use rule::Rule;
use slot::{AclSendLock, ConnectionManager, ConnectionStorage, PacketGrant, Woken};
use slot_call::{Local, SlotCall, TableView};
use table::Outcome;

#[derive(Clone, Copy)]
pub struct PollRequestToSendCall {
    pub lock: AclSendLock,
    pub packets: u32,
}

impl SlotCall for PollRequestToSendCall {
    type Gives = PacketGrant;

    ghost values = { grant_values };

    ghost call = { λ c. on_link (poll_request_to_send c.lock.index c.lock.life c.packets) c.lock.handle };

    ghost test = { λ c. fits by_live c.lock.handle };

    ghost none = { λ c v. absent (poll_request_to_send c.lock.index c.lock.life c.packets) v.default_att_mtu };

    ghost done = { λ c v i s. local (poll_request_to_send c.lock.index c.lock.life c.packets) v.default_att_mtu i s };

    ghost runs = { λ c t. refl };

    ghost moves = { λ c v i s. link_moved (poll_request_to_send c.lock.index c.lock.life c.packets) v.default_att_mtu i v.pool.free s };

    // The lock's index and life are not looked at.
    fn rule(&self) -> Rule {
        Rule::Live(self.lock.handle)
    }

    fn absent(&self, _view: TableView) -> Result<PacketGrant, Refusal> {
        Err(Refusal::Disconnected)
    }

    // The grant carries the slot's index and life, by which what is left of it goes back.
    fn at(&self, _view: TableView, i: usize, s: ConnectionStorage) -> Local<PacketGrant> {
        let mut slot = s;
        if self.packets > s.link_credits {
            slot.blocked_sends = s.blocked_sends.wrapping_add(1);
            return slot_call::unshared(Err(Refusal::Pending), Woken::Nobody, slot);
        }
        slot.link_credits -= self.packets;
        let grant = PacketGrant {
            handle: s.handle,
            packets: self.packets,
            index: i,
            life: s.life,
        };
        slot_call::unshared(Ok(grant), Woken::Nobody, slot)
    }
}

pub fn poll_request_to_send(
    t: ConnectionManager,
    lock: AclSendLock,
    packets: u32,
) -> Outcome<PacketGrant>
    ensures { outcome_of grant_values result ≡ run (on_link (poll_request_to_send lock.index lock.life packets) lock.handle) t }
{
    slot_call::resolve(t, &PollRequestToSendCall { lock, packets })
}
