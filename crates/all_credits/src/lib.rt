// The credits of every link, and of every link to come.
#![tactic(auto)]

ghost use Rattle.std.specs.Prelude.{◌≡◌};
ghost use Rattle.model.specs.Answer.{no_value};
ghost use Rattle.model.specs.Calls.{run, set_link_credits_call};
ghost use Rattle.table.specs.Answer.{outcome_of, look_of};

use refusal::Refusal;
use slot::ConnectionManager;
use table::{Look, Outcome};

// The default, and every slot below the count. Padding keeps its credits.
pub fn set_link_credits_in(t: &mut ConnectionManager, credits: u32) -> Look<()>
    ensures { look_of no_value result t.new ≡ run (set_link_credits_call credits) t.old }
{
    if !search::is_well_formed(t) {
        return Look::waking_nobody(Err(Refusal::Setup));
    }
    t.default_link_credits = credits;
    for i in 0..t.count {
        t.connections[i].link_credits = credits;
    }
    Look::waking_nobody(Ok(()))
}

pub fn set_link_credits(t: ConnectionManager, credits: u32) -> Outcome<()>
    ensures { outcome_of no_value result ≡ run (set_link_credits_call credits) t }
{
    let mut table = t;
    let Look { answer, woken } = set_link_credits_in(&mut table, credits);
    Outcome {
        answer,
        woken,
        table,
    }
}
