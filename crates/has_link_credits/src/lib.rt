// Whether a link has so many credits.
#![tactic(auto)]

ghost use Rattle.std.specs.Prelude.{◌≡◌, refl};
ghost use Rattle.model.specs.Find.{by_live, fits};
ghost use Rattle.model.specs.Link.{has_link_credits, absent, local};
ghost use Rattle.model.specs.Calls.{run, on_link};
ghost use Rattle.model.proofs.Moved.{link_moved};
ghost use Rattle.table.specs.Answer.{look_of};
ghost use Rattle.has_link_credits.specs.Answer.{bit_values};

use refusal::Refusal;
use rule::Rule;
use slot::{ConnectionManager, ConnectionStorage, Woken};
use slot_call::{Local, LookCall, SlotCall, TableView};
use table::Look;

// Of a type of its own, which says which call it is.
#[derive(Clone, Copy)]
pub struct HasLinkCreditsCall {
    pub handle: u16,
    pub packets: u32,
}

impl SlotCall for HasLinkCreditsCall {
    type Gives = bool;

    ghost values = { bit_values };

    ghost call = { λ c. on_link (has_link_credits c.packets) c.handle };

    ghost test = { λ c. fits by_live c.handle };

    ghost none = { λ c v. absent (has_link_credits c.packets) v.default_att_mtu };

    ghost done = { λ c v i s. local (has_link_credits c.packets) v.default_att_mtu i s };

    ghost runs = { λ c t. refl };

    ghost moves = { λ c v i s. link_moved (has_link_credits c.packets) v.default_att_mtu i v.pool.free s };

    fn rule(&self) -> Rule {
        Rule::Live(self.handle)
    }

    fn absent(&self, _view: TableView) -> Result<bool, Refusal> {
        Ok(false)
    }

    fn at(&self, _view: TableView, _i: usize, s: ConnectionStorage) -> Local<bool> {
        slot_call::unshared(Ok(self.packets <= s.link_credits), Woken::Nobody, s)
    }
}

impl LookCall for HasLinkCreditsCall {
    ghost looks = { λ c v i s. (refl, refl) };
}

pub fn has_link_credits(t: ConnectionManager, handle: u16, packets: u32) -> Look<bool>
    ensures { look_of bit_values result t ≡ run (on_link (has_link_credits packets) handle) t }
{
    slot_call::resolve_look(&t, &HasLinkCreditsCall { handle, packets })
}
