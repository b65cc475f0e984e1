// A grant of packets of the pool that all links share.
#![tactic(auto)]

ghost use Rattle.std.specs.Prelude.{◌≡◌};
ghost use Rattle.model.specs.Answer.{Refusal as ModelRefusal, refusal};
ghost use Rattle.model.specs.Find.{by_live, fits};
ghost use Rattle.model.specs.Calls.{run, poll_request_from_pool_call};
ghost use Rattle.table.specs.Answer.{outcome_of};
ghost use Rattle.poll_request_from_pool.specs.Answer.{pool_grant_values};
ghost use Rattle.poll_request_from_pool.specs.Ask.{asked_in, asked_in_moved, asks};

use pool::Share;
use refusal::Refusal;
use rule::Rule;
use slot::{ConnectionManager, ConnectionStorage, PoolGrant, Woken};
use slot_call::{Local, SlotCall, TableView};
use table::Outcome;

// Of a type of its own, which says which call it is.
#[derive(Clone, Copy)]
pub struct PollRequestFromPoolCall {
    pub handle: u16,
    pub packets: u32,
}

impl SlotCall for PollRequestFromPoolCall {
    type Gives = PoolGrant;

    ghost values = { pool_grant_values };

    ghost call = { λ c. poll_request_from_pool_call c.handle c.packets };

    ghost test = { λ c. fits by_live c.handle };

    ghost none = { λ c v. refusal ModelRefusal.Disconnected };

    ghost done = { λ c v i s. asked_in c.packets i s v.pool };

    ghost runs = { λ c t. asks t c.handle c.packets };

    ghost moves = { λ c v i s. asked_in_moved c.packets i s v.pool };

    fn rule(&self) -> Rule {
        Rule::Live(self.handle)
    }

    fn absent(&self, _view: TableView) -> Result<PoolGrant, Refusal> {
        Err(Refusal::Disconnected)
    }

    // An ask of 0 is granted and leaves the turn alone. Any other waits from here on, until it is granted or its link closes. Granted,
    // the slot's count of packets stays a byte.
    fn at(&self, view: TableView, i: usize, s: ConnectionStorage) -> Local<PoolGrant> {
        if self.packets > view.pool.packets as u32 {
            return slot_call::unshared(Err(Refusal::Ask), Woken::Nobody, s);
        }
        let grant = PoolGrant {
            handle: s.handle,
            packets: self.packets,
            index: i,
            life: s.life,
        };
        if self.packets == 0 {
            return slot_call::unshared(Ok(grant), Woken::Nobody, s);
        }
        let n = self.packets as u8;
        let mut slot = s;
        if pool::may_draw(view.pool, i, n) && n <= 255 - s.pool_held {
            slot.pool_held += n;
            return Local {
                answer: Ok(grant),
                woken: Woken::Nobody,
                slot,
                share: Share::Draws(n),
            };
        }
        slot.blocked_sends = s.blocked_sends.wrapping_add(1);
        Local {
            answer: Err(Refusal::Pending),
            woken: Woken::Nobody,
            slot,
            share: Share::Waits,
        }
    }
}

pub fn poll_request_from_pool(t: ConnectionManager, handle: u16, packets: u32) -> Outcome<PoolGrant>
    ensures { outcome_of pool_grant_values result ≡ run (poll_request_from_pool_call handle packets) t }
{
    slot_call::resolve(t, &PollRequestFromPoolCall { handle, packets })
}
