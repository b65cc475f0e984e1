// Packets of the pool that are free again: those that the controller reports as sent, and what is left of a grant that is ended.
#![tactic(auto)]

ghost use Rattle.std.specs.Prelude.{◌≡◌, refl};
ghost use Rattle.model.specs.Answer.{Refusal as ModelRefusal, no_value, refusal};
ghost use Rattle.model.specs.Find.{by_index, by_live, fits};
ghost use Rattle.model.specs.Calls.{run, pool_confirm_sent_call, pool_grant_end_call, returned_at, pool_ended_at};
ghost use Rattle.model.proofs.Pooled.{returned_moved};
ghost use Rattle.model.proofs.Moved.{ended_moved};
ghost use Rattle.table.specs.Answer.{outcome_of};
ghost use Rattle.slot_call.specs.Answer.{local_of, ended_values};

use pool::Share;
use refusal::Refusal;
use rule::Rule;
use slot::{ConnectionManager, ConnectionStorage, PoolGrant, Woken};
use slot_call::{Ended, Local, SlotCall, TableView};
use table::Outcome;

// A slot that holds fewer stays as it is.
fn give_back(packets: u32, s: ConnectionStorage) -> Local<()>
    ensures { local_of no_value result ≡ returned_at packets s }
{
    if packets > s.pool_held as u32 {
        return slot_call::unshared(Err(Refusal::Held), Woken::Nobody, s);
    }
    let n = packets as u8;
    let mut slot = s;
    slot.pool_held -= n;
    Local {
        answer: Ok(()),
        woken: Woken::Nobody,
        slot,
        share: Share::GivesBack(n),
    }
}

// ---- pool_confirm_sent

// Of a type of its own, which says which call it is.
#[derive(Clone, Copy)]
pub struct PoolConfirmSentCall {
    pub handle: u16,
    pub packets: u32,
}

impl SlotCall for PoolConfirmSentCall {
    type Gives = ();

    ghost values = { no_value };

    ghost call = { λ c. pool_confirm_sent_call c.handle c.packets };

    ghost test = { λ c. fits by_live c.handle };

    ghost none = { λ c v. refusal ModelRefusal.NotFound };

    ghost done = { λ c v i s. returned_at c.packets s };

    ghost runs = { λ c t. refl };

    ghost moves = { λ c v i s. returned_moved c.packets s v.pool };

    fn rule(&self) -> Rule {
        Rule::Live(self.handle)
    }

    fn absent(&self, _view: TableView) -> Result<(), Refusal> {
        Err(Refusal::NotFound)
    }

    fn at(&self, _view: TableView, _i: usize, s: ConnectionStorage) -> Local<()> {
        give_back(self.packets, s)
    }
}

// The controller's report: it carries no life, so it goes by the live slot of the handle.
pub fn pool_confirm_sent(t: ConnectionManager, handle: u16, packets: u32) -> Outcome<()>
    ensures { outcome_of no_value result ≡ run (pool_confirm_sent_call handle packets) t }
{
    slot_call::resolve(t, &PoolConfirmSentCall { handle, packets })
}

// ---- pool_grant_end

#[derive(Clone, Copy)]
pub struct PoolGrantEndCall {
    pub grant: PoolGrant,
}

impl SlotCall for PoolGrantEndCall {
    type Gives = Ended;

    ghost values = { ended_values };

    ghost call = { λ c. pool_grant_end_call c.grant };

    ghost test = { λ c. fits by_index c.grant.index };

    ghost none = { λ c v. refusal ModelRefusal.Index };

    ghost done = { λ c v i s. pool_ended_at c.grant.life c.grant.packets s };

    ghost runs = { λ c t. refl };

    ghost moves = { λ c v i s. ended_moved c.grant.life c.grant.packets s v.pool };

    fn rule(&self) -> Rule {
        Rule::Index(self.grant.index)
    }

    fn absent(&self, _view: TableView) -> Result<Ended, Refusal> {
        Err(Refusal::Index)
    }

    // The life is looked at before the state: a grant can be stale on a closing link too. The grant's handle is not looked at.
    fn at(&self, _view: TableView, _i: usize, s: ConnectionStorage) -> Local<Ended> {
        if self.grant.life != s.life {
            return slot_call::unshared(Ok(Ended::Stale), Woken::Nobody, s);
        }
        if !s.state.is_live() {
            return slot_call::unshared(Err(Refusal::NotFound), Woken::Nobody, s);
        }
        let Local {
            answer,
            woken,
            slot,
            share,
        } = give_back(self.grant.packets, s);
        let answer = match answer {
            Ok(()) => Ok(Ended::Done),
            Err(refusal) => Err(refusal),
        };
        Local {
            answer,
            woken,
            slot,
            share,
        }
    }
}

pub fn pool_grant_end(t: ConnectionManager, grant: PoolGrant) -> Outcome<Ended>
    ensures { outcome_of ended_values result ≡ run (pool_grant_end_call grant) t }
{
    slot_call::resolve(t, &PoolGrantEndCall { grant })
}
