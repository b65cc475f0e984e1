// The ticket of the lowest slot that asks to be disconnected.
#![tactic(auto)]

ghost use Rattle.std.specs.Prelude.{◌≡◌, refl};
ghost use Rattle.model.specs.Answer.{Refusal, refusal};
ghost use Rattle.model.specs.Calls.{run, poll_disconnecting_call, requests};
ghost use Rattle.table.specs.Answer.{look_of};
ghost use Rattle.poll_disconnecting.specs.Answer.{ticket_values};
ghost use Rattle.poll_disconnecting.specs.Ticket.{request_at, same_call};

use refusal::Refusal;
use rule::Rule;
use slot::{ConnectionManager, ConnectionStorage, DisconnectRequest, Woken};
use slot_call::{Local, LookCall, SlotCall, TableView};
use state::ConnectionState;
use table::Look;

#[derive(Clone, Copy)]
pub struct PollDisconnectingCall;

impl SlotCall for PollDisconnectingCall {
    type Gives = DisconnectRequest;

    ghost values = { ticket_values };

    ghost call = { λ c. poll_disconnecting_call };

    ghost test = { λ c. requests };

    ghost none = { λ c v. refusal Refusal.Pending };

    ghost done = { λ c v i s. request_at i s };

    ghost runs = { λ c t. same_call t };

    ghost moves = { λ c v i s. refl };

    fn rule(&self) -> Rule {
        Rule::Requesting
    }

    fn absent(&self, _view: TableView) -> Result<DisconnectRequest, Refusal> {
        Err(Refusal::Pending)
    }

    // The search finds requesting slots only; any other state has no ticket.
    fn at(&self, _view: TableView, i: usize, s: ConnectionStorage) -> Local<DisconnectRequest> {
        if let ConnectionState::DisconnectRequest(reason) = s.state {
            let ticket = DisconnectRequest {
                index: i,
                handle: s.handle,
                reason,
                life: s.life,
            };
            return slot_call::unshared(Ok(ticket), Woken::Nobody, s);
        }
        slot_call::unshared(Err(Refusal::Pending), Woken::Nobody, s)
    }
}

impl LookCall for PollDisconnectingCall {
    ghost looks = { λ c v i s. (refl, refl) };
}

// Polled once. The slot stays a request until it is confirmed.
pub fn poll_disconnecting(t: ConnectionManager) -> Look<DisconnectRequest>
    ensures { look_of ticket_values result t ≡ run poll_disconnecting_call t }
{
    slot_call::resolve_look(&t, &PollDisconnectingCall)
}
