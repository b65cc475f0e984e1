// A new link takes a free slot.
#![tactic(auto)]

ghost use Rattle.std.specs.Prelude.{◌≡◌, refl};
ghost use Rattle.model.specs.Answer.{Refusal, refusal, no_value};
ghost use Rattle.model.specs.Calls.{run, connects, is_free, connected_at, role_waiter};
ghost use Rattle.model.proofs.Pooled.{connected_moved};
ghost use Rattle.table.specs.Answer.{outcome_of};

use event_queue::EventQueue;
use refusal::Refusal;
use rule::Rule;
use slot::{Address, ConnParams, ConnectionManager, ConnectionStorage, LeConnRole, Woken};
use slot_call::{Local, SlotCall, TableView};
use state::ConnectionState;
use table::Outcome;

// What `connect` sets.
#[derive(Clone, Copy)]
pub struct NewLink {
    pub handle: u16,
    pub peer: Address,
    pub role: LeConnRole,
    pub params: ConnParams,
}

#[derive(Clone, Copy)]
pub struct ConnectCall {
    pub new: NewLink,
}

// No From: a role stands for other things too, and this is who waits for it.
fn role_waiter(role: LeConnRole) -> Woken
    ensures { result ≡ role_waiter role }
{
    match role {
        LeConnRole::Central => Woken::Central,
        LeConnRole::Peripheral => Woken::Peripheral,
    }
}

impl SlotCall for ConnectCall {
    type Gives = ();

    ghost values = { no_value };

    ghost call = { λ c. connects c.new.handle c.new.peer c.new.role c.new.params };

    ghost test = { λ c. is_free };

    ghost none = { λ c v. refusal Refusal.NotFound };

    ghost done = { λ c v i s. connected_at c.new.handle c.new.peer c.new.role c.new.params v.default_link_credits s };

    ghost runs = { λ c t. refl };

    ghost moves = { λ c v i s. connected_moved c.new.handle c.new.peer c.new.role c.new.params v.default_link_credits v.pool.free s };

    fn rule(&self) -> Rule {
        Rule::Free
    }

    fn absent(&self, _view: TableView) -> Result<(), Refusal> {
        Err(Refusal::NotFound)
    }

    // No life follows the last: at 0 again, locks, grants and tickets of the slot's first lives would fit. No other slot is
    // tried.
    fn at(&self, view: TableView, _i: usize, s: ConnectionStorage) -> Local<()> {
        if s.life == 4294967295 {
            return slot_call::unshared(Err(Refusal::Life), Woken::Nobody, s);
        }
        // A life more; the lost count starts anew; references, blocked sends and both indication flags are kept.
        let slot = ConnectionStorage {
            state: ConnectionState::Connecting,
            handle: self.new.handle,
            life: s.life + 1,
            role: self.new.role,
            peer_identity: self.new.peer,
            params: self.new.params,
            subrating_params: None,
            att_mtu: 0,
            link_credits: view.default_link_credits,
            acl_send_locked: false,
            refcount: s.refcount,
            blocked_sends: s.blocked_sends,
            lost: 0,
            pool_held: s.pool_held,
            indication_in_flight: s.indication_in_flight,
            indication_cfm_received: s.indication_cfm_received,
            events: EventQueue::new(),
        };
        slot_call::unshared(Ok(()), role_waiter(self.new.role), slot)
    }
}

pub fn connect(t: ConnectionManager, new: NewLink) -> Outcome<()>
    ensures { outcome_of no_value result ≡ run (connects new.handle new.peer new.role new.params) t }
{
    slot_call::resolve(t, &ConnectCall { new })
}
