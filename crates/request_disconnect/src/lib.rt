// The host's request to end a link, by its index or its handle.
#![tactic(auto)]

ghost use Rattle.std.specs.Prelude.{◌≡◌, refl};
ghost use Rattle.model.specs.Answer.{no_value};
ghost use Rattle.model.specs.Find.{by_index, by_live, fits};
ghost use Rattle.model.specs.Link.{request_disconnect, request_handle_disconnect, requested, absent, local};
ghost use Rattle.model.specs.Calls.{run, on_link};
ghost use Rattle.model.proofs.Moved.{link_moved};
ghost use Rattle.table.specs.Answer.{outcome_of};
ghost use Rattle.slot_call.specs.Answer.{local_of};

use refusal::Refusal;
use rule::Rule;
use slot::{ConnectionManager, ConnectionStorage, Woken};
use slot_call::{Local, SlotCall, TableView};
use state::{ConnectionState, DisconnectReason};
use table::Outcome;

// What both calls do to the slot: only a Connected one becomes a request.
fn ask(reason: DisconnectReason, s: ConnectionStorage) -> Local<()>
    ensures { local_of no_value result ≡ requested reason s }
{
    if s.state.is_connected() {
        let slot = s.with_state(ConnectionState::DisconnectRequest(reason));
        return slot_call::unshared(Ok(()), Woken::Disconnect, slot);
    }
    slot_call::unshared(Ok(()), Woken::Nobody, s)
}

// ---- request_disconnect

#[derive(Clone, Copy)]
pub struct RequestDisconnectCall {
    pub index: u8,
    pub reason: DisconnectReason,
}

impl SlotCall for RequestDisconnectCall {
    type Gives = ();

    ghost values = { no_value };

    ghost call = { λ c. on_link (request_disconnect c.reason) c.index };

    ghost test = { λ c. fits by_index c.index };

    ghost none = { λ c v. absent (request_disconnect c.reason) v.default_att_mtu };

    ghost done = { λ c v i s. local (request_disconnect c.reason) v.default_att_mtu i s };

    ghost runs = { λ c t. refl };

    ghost moves = { λ c v i s. link_moved (request_disconnect c.reason) v.default_att_mtu i v.pool.free s };

    fn rule(&self) -> Rule {
        Rule::Index(self.index as usize)
    }

    fn absent(&self, _view: TableView) -> Result<(), Refusal> {
        Err(Refusal::Index)
    }

    fn at(&self, _view: TableView, _i: usize, s: ConnectionStorage) -> Local<()> {
        ask(self.reason, s)
    }
}

pub fn request_disconnect(t: ConnectionManager, index: u8, reason: DisconnectReason) -> Outcome<()>
    ensures { outcome_of no_value result ≡ run (on_link (request_disconnect reason) index) t }
{
    slot_call::resolve(t, &RequestDisconnectCall { index, reason })
}

// ---- request_handle_disconnect

#[derive(Clone, Copy)]
pub struct RequestHandleDisconnectCall {
    pub handle: u16,
    pub reason: DisconnectReason,
}

impl SlotCall for RequestHandleDisconnectCall {
    type Gives = ();

    ghost values = { no_value };

    ghost call = { λ c. on_link (request_handle_disconnect c.reason) c.handle };

    ghost test = { λ c. fits by_live c.handle };

    ghost none = { λ c v. absent (request_handle_disconnect c.reason) v.default_att_mtu };

    ghost done = { λ c v i s. local (request_handle_disconnect c.reason) v.default_att_mtu i s };

    ghost runs = { λ c t. refl };

    ghost moves = { λ c v i s. link_moved (request_handle_disconnect c.reason) v.default_att_mtu i v.pool.free s };

    fn rule(&self) -> Rule {
        Rule::Live(self.handle)
    }

    // A handle that no live slot has is not refused.
    fn absent(&self, _view: TableView) -> Result<(), Refusal> {
        Ok(())
    }

    fn at(&self, _view: TableView, _i: usize, s: ConnectionStorage) -> Local<()> {
        ask(self.reason, s)
    }
}

pub fn request_handle_disconnect(
    t: ConnectionManager,
    handle: u16,
    reason: DisconnectReason,
) -> Outcome<()>
    ensures { outcome_of no_value result ≡ run (on_link (request_handle_disconnect reason) handle) t }
{
    slot_call::resolve(t, &RequestHandleDisconnectCall { handle, reason })
}
