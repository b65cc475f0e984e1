// The second `poll_accept`: its peers are those of the records in force for its role, in a lent file, which is read once for each
// Connecting slot of the role.
#![tactic(auto)]

ghost use Rattle.std.specs.Prelude.{◌≡◌};
ghost use Rattle.model.specs.Answer.{one_value, refusal, unmoved};
ghost use Rattle.model.specs.Calls.{among};
ghost use Rattle.refusal.specs.declared.Refusal.{Refusal};
ghost use Rattle.table.specs.Answer.{outcome_of};
ghost use Rattle.peer_records.specs.Force.{peers_in};
ghost use Rattle.accept_recorded.specs.Recorded.{poll_recorded};

use accept::PeerSet;
use refusal::Refusal;
use slot::{Address, ConnectionManager, LeConnRole, Woken};
use table::Outcome;

// The peers whose record in force is for the role.
#[derive(Clone, Copy)]
pub struct RecordedPeers<'a> {
    pub file: &'a [u8],
    pub role: LeConnRole,
}

impl PeerSet for RecordedPeers<'_> {
    ghost has = { λ r. among (peers_in r.file.now r.role) };

    fn contains(&self, peer: Address) -> bool {
        peer_records::in_force(self.file, self.role, peer)
    }
}

fn refused(r: Refusal, t: ConnectionManager) -> Outcome<usize>
    ensures { outcome_of one_value result ≡ unmoved (refusal r) t }
{
    Outcome {
        answer: Err(r),
        woken: Woken::Nobody,
        table: t,
    }
}

pub fn poll_accept_recorded(t: ConnectionManager, role: LeConnRole, file: &[u8]) -> Outcome<usize>
    ensures { outcome_of one_value result ≡ poll_recorded role file.now t }
{
    if !search::is_well_formed(&t) {
        return refused(Refusal::Setup, t);
    }
    if !peer_records::is_file(file) {
        return refused(Refusal::Pairs, t);
    }
    if !peer_records::records_fit(file) {
        return refused(Refusal::Values, t);
    }
    accept::poll_accept_among(t, role, &RecordedPeers { file, role })
}
