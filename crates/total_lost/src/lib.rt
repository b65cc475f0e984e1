// The lost counts of all slots together.
#![tactic(auto)]

ghost use Rattle.std.specs.Prelude.{◌≡◌};
ghost use Rattle.model.specs.Answer.{one_value};
ghost use Rattle.model.specs.Calls.{run, total_lost_call};
ghost use Rattle.table.specs.Answer.{look_of};

use refusal::Refusal;
use slot::ConnectionManager;
use table::Look;

// The sum over the slots below the count, wrapped.
pub fn total_lost_in(t: &ConnectionManager) -> Look<u32>
    ensures { look_of one_value result t.now ≡ run total_lost_call t.now }
{
    if !search::is_well_formed(t) {
        return Look::waking_nobody(Err(Refusal::Setup));
    }
    let mut total: u32 = 0;
    for i in 0..t.count {
        total = total.wrapping_add(t.connections[i].lost);
    }
    Look::waking_nobody(Ok(total))
}

pub fn total_lost(t: ConnectionManager) -> Look<u32>
    ensures { look_of one_value result t ≡ run total_lost_call t }
{
    total_lost_in(&t)
}
