// A Connecting slot is accepted: the lowest of the role whose peer is in a set of addresses.
// The table and the role are arguments of each call and stay two: together they are nothing.
#![tactic(auto)]

ghost use Rattle.std.specs.Prelude.{◌≡◌, refl, Bool, min, take, []};
ghost use Rattle.slot.specs.declared.Address.{Address};
ghost use Rattle.model.specs.Answer.{Refusal, refusal, one_value};
ghost use Rattle.model.specs.Find.{by_index, fits};
ghost use Rattle.model.specs.Calls.{run, poll_accept_call, accepts, accepted_at, fits_peers};
ghost use Rattle.model.proofs.Pooled.{accepted_moved};
ghost use Rattle.table.specs.Answer.{outcome_of};
ghost use Rattle.accept.specs.Accept.{accepts_of, accept_by};

use refusal::Refusal;
use rule::Rule;
use slot::{Address, ConnectionManager, ConnectionStorage, LeConnRole, Woken};
use slot_call::{Local, SlotCall, TableView};
use state::ConnectionState;
use table::{Look, Outcome};

// Any peer of the role.
#[derive(Clone, Copy)]
pub struct PollAcceptAnyCall {
    pub role: LeConnRole,
}

impl SlotCall for PollAcceptAnyCall {
    type Gives = usize;

    ghost values = { one_value };

    ghost call = { λ c. poll_accept_call c.role [] };

    ghost test = { λ c. accepts c.role [] };

    ghost none = { λ c v. refusal Refusal.Pending };

    ghost done = { λ c v i s. accepted_at i s };

    ghost runs = { λ c t. refl };

    ghost moves = { λ c v i s. accepted_moved i v.pool.free s };

    fn rule(&self) -> Rule {
        Rule::Accepting(self.role)
    }

    fn absent(&self, _view: TableView) -> Result<usize, Refusal> {
        Err(Refusal::Pending)
    }

    fn at(&self, _view: TableView, i: usize, s: ConnectionStorage) -> Local<usize> {
        if s.refcount != 0 {
            return slot_call::unshared(Err(Refusal::Refs), Woken::Nobody, s);
        }
        let mut slot = s.with_state(ConnectionState::Connected);
        slot.refcount = 1;
        slot_call::unshared(Ok(i), Woken::Nobody, slot)
    }
}

// ---- the peers

pub trait PeerSet {
    ghost has: { Self → Address → Bool };

    fn contains(&self, peer: Address) -> bool
        ensures { result ≡ has self.now peer };
}

// A list of any length; an empty one has every peer.
#[derive(Clone, Copy)]
pub struct Listed<'a> {
    pub peers: &'a [Address],
}

impl PeerSet for Listed<'_> {
    ghost has = { λ l. fits_peers l.peers.now };

    fn contains(&self, peer: Address) -> bool {
        for i in 0..self.peers.len() {
            if rule::same_address(self.peers[i], peer) {
                return true;
            }
        }
        self.peers.len() == 0
    }
}

// ---- the calls

pub fn poll_accept_any(t: ConnectionManager, role: LeConnRole) -> Outcome<usize>
    ensures { outcome_of one_value result ≡ run (poll_accept_call role []) t }
{
    slot_call::resolve(t, &PollAcceptAnyCall { role })
}

// The slot at an index, in whatever state, as if it was the one that a search found; 5 where the table has none.
pub fn accept_at(t: ConnectionManager, i: usize) -> Outcome<usize>
    ensures { outcome_of one_value result ≡ accept_by (fits by_index i) t }
{
    let mut table = t;
    // The role is that of the call's own search, which is not made here.
    let any = PollAcceptAnyCall {
        role: LeConnRole::Central,
    };
    let Look { answer, woken } = slot_call::work_in(&mut table, Rule::Index(i), &any);
    Outcome {
        answer,
        woken,
        table,
    }
}

// With the peers of a set. No rule of a search can hold one, so the slots are gone over here.
pub fn poll_accept_among<P: PeerSet>(
    t: ConnectionManager,
    role: LeConnRole,
    peers: &P,
) -> Outcome<usize>
    ensures { outcome_of one_value result ≡ accept_by (accepts_of role (P.has peers.now)) t }
{
    if !search::is_well_formed(&t) {
        return Outcome {
            answer: Err(Refusal::Setup),
            woken: Woken::Nobody,
            table: t,
        };
    }
    for i in 0..t.count {
        let s = t.connections[i];
        if rule::fits(Rule::Accepting(role), i, s) && peers.contains(s.peer_identity) {
            let Local {
                answer,
                woken,
                slot,
                share,
            } = PollAcceptAnyCall { role }.at(slot_call::view(&t), i, s);
            let mut table = t;
            table::put_shared(&mut table, i, slot, share);
            return Outcome {
                answer,
                woken,
                table,
            };
        }
    }
    Outcome {
        answer: Err(Refusal::Pending),
        woken: Woken::Nobody,
        table: t,
    }
}

// A list that the caller lends.
pub fn poll_accept(t: ConnectionManager, role: LeConnRole, peers: &[Address]) -> Outcome<usize>
    ensures { outcome_of one_value result ≡ run (poll_accept_call role peers.now) t }
{
    poll_accept_among(t, role, &Listed { peers })
}

// As many peers as a call by value can list.
pub type Peers = [Address; 16];

// The first n addresses of an array; a count above 16 is taken as 16.
pub fn poll_accept_listed(
    t: ConnectionManager,
    role: LeConnRole,
    peers: Peers,
    n: usize,
) -> Outcome<usize>
    ensures { outcome_of one_value result ≡ run (poll_accept_call role (take (min n 16) peers)) t }
{
    // `min` is std's, and `att_mtu::lesser` is of numbers of 16 bits.
    let end = if n < 16 { n } else { 16 };
    poll_accept(t, role, &peers[..end])
}
