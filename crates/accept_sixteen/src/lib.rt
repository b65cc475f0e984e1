// A full list of peers by value.
#![tactic(auto)]

ghost use Rattle.std.specs.Prelude.{◌≡◌};
ghost use Rattle.model.specs.Answer.{one_value};
ghost use Rattle.model.specs.Calls.{run, poll_accept_call};
ghost use Rattle.table.specs.Answer.{outcome_of};

use accept::Peers;
use slot::{ConnectionManager, LeConnRole};
use table::Outcome;

// Sixteen peers, taken by value and lent on to `accept::poll_accept` as a slice, for callers that hold no reference. A peer may stand
// there more than once.
pub fn poll_accept_sixteen(t: ConnectionManager, role: LeConnRole, peers: Peers) -> Outcome<usize>
    ensures { outcome_of one_value result ≡ run (poll_accept_call role peers) t }
{
    accept::poll_accept(t, role, &peers)
}
