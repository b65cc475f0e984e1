// A Connected link by its handle or by its peer, with a reference more.
#![tactic(auto)]

ghost use Rattle.std.specs.Prelude.{◌≡◌, refl, [], ◌∷◌};
ghost use Rattle.model.specs.Answer.{Refusal, refusal, one_value};
ghost use Rattle.model.specs.Find.{by_connected, fits};
ghost use Rattle.model.specs.Link.{get_connected_handle, raised_ref, absent, local};
ghost use Rattle.model.specs.Calls.{run, on_link, get_connection_by_peer_address_call, has_peer};
ghost use Rattle.model.proofs.Moved.{link_moved};
ghost use Rattle.table.specs.Answer.{outcome_of};
ghost use Rattle.slot_call.specs.Answer.{local_of};

use refusal::Refusal;
use rule::Rule;
use slot::{Address, ConnectionManager, ConnectionStorage, Woken};
use slot_call::{Local, SlotCall, TableView};
use table::Outcome;

// Both look-ups answer alike: the index of the link. Index and slot come apart, as `SlotCall::at` is given them.
fn raised_at(i: usize, s: ConnectionStorage) -> Local<usize>
    ensures { local_of one_value result ≡ raised_ref (i ∷ []) s }
{
    if s.refcount == 255 {
        return slot_call::unshared(Err(Refusal::Refs), Woken::Nobody, s);
    }
    let mut slot = s;
    slot.refcount = s.refcount + 1;
    slot_call::unshared(Ok(i), Woken::Nobody, slot)
}

#[derive(Clone, Copy)]
pub struct GetConnectedHandleCall {
    pub handle: u16,
}

impl SlotCall for GetConnectedHandleCall {
    type Gives = usize;

    ghost values = { one_value };

    ghost call = { λ c. on_link get_connected_handle c.handle };

    ghost test = { λ c. fits by_connected c.handle };

    ghost none = { λ c v. absent get_connected_handle v.default_att_mtu };

    ghost done = { λ c v i s. local get_connected_handle v.default_att_mtu i s };

    ghost runs = { λ c t. refl };

    ghost moves = { λ c v i s. link_moved get_connected_handle v.default_att_mtu i v.pool.free s };

    fn rule(&self) -> Rule {
        Rule::Connected(self.handle)
    }

    fn absent(&self, _view: TableView) -> Result<usize, Refusal> {
        Err(Refusal::NotFound)
    }

    fn at(&self, _view: TableView, i: usize, s: ConnectionStorage) -> Local<usize> {
        raised_at(i, s)
    }
}

pub fn get_connected_handle(t: ConnectionManager, handle: u16) -> Outcome<usize>
    ensures { outcome_of one_value result ≡ run (on_link get_connected_handle handle) t }
{
    slot_call::resolve(t, &GetConnectedHandleCall { handle })
}

#[derive(Clone, Copy)]
pub struct GetConnectionByPeerAddressCall {
    pub peer: Address,
}

impl SlotCall for GetConnectionByPeerAddressCall {
    type Gives = usize;

    ghost values = { one_value };

    ghost call = { λ c. get_connection_by_peer_address_call c.peer };

    ghost test = { λ c. has_peer c.peer };

    ghost none = { λ c v. refusal Refusal.NotFound };

    ghost done = { λ c v i s. raised_ref (i ∷ []) s };

    ghost runs = { λ c t. refl };

    ghost moves = { λ c v i s. link_moved get_connected_handle v.default_att_mtu i v.pool.free s };

    fn rule(&self) -> Rule {
        Rule::Peer(self.peer)
    }

    fn absent(&self, _view: TableView) -> Result<usize, Refusal> {
        Err(Refusal::NotFound)
    }

    fn at(&self, _view: TableView, i: usize, s: ConnectionStorage) -> Local<usize> {
        raised_at(i, s)
    }
}

pub fn get_connection_by_peer_address(t: ConnectionManager, peer: Address) -> Outcome<usize>
    ensures { outcome_of one_value result ≡ run (get_connection_by_peer_address_call peer) t }
{
    slot_call::resolve(t, &GetConnectionByPeerAddressCall { peer })
}
