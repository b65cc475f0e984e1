// A link's ATT MTU by the Core Specification: exchanged, and looked up as it is stored.
#![tactic(auto)]

ghost use Rattle.std.specs.Prelude.{◌≡◌, refl};
ghost use Rattle.model.specs.Answer.{one_value};
ghost use Rattle.model.specs.Find.{by_live, fits};
ghost use Rattle.model.specs.Link.{negotiate_att_mtu, get_stored_att_mtu, absent, local, by_specification};
ghost use Rattle.model.specs.Calls.{run, on_link};
ghost use Rattle.model.proofs.Moved.{link_moved};
ghost use Rattle.table.specs.Answer.{outcome_of, look_of};

use refusal::Refusal;
use rule::Rule;
use slot::{ConnectionManager, ConnectionStorage, Woken};
use slot_call::{Local, LookCall, SlotCall, TableView};
use table::{Look, Outcome};

// ---- negotiate_att_mtu

// Of a type of its own, which says which call it is.
#[derive(Clone, Copy)]
pub struct NegotiateAttMtuCall {
    pub handle: u16,
    pub mtu: u16,
}

// The lower of two offers, or 23 where either is under 23. Our own is the table's default.
fn settled(d: u16, mtu: u16) -> u16
    ensures { result ≡ by_specification d mtu }
{
    if d < 23 || mtu < 23 {
        return ConnectionStorage::DEFAULT_ATT_MTU;
    }
    att_mtu::lesser(d, mtu)
}

impl SlotCall for NegotiateAttMtuCall {
    type Gives = u16;

    ghost values = { one_value };

    ghost call = { λ c. on_link (negotiate_att_mtu c.mtu) c.handle };

    ghost test = { λ c. fits by_live c.handle };

    ghost none = { λ c v. absent (negotiate_att_mtu c.mtu) v.default_att_mtu };

    ghost done = { λ c v i s. local (negotiate_att_mtu c.mtu) v.default_att_mtu i s };

    ghost runs = { λ c t. refl };

    ghost moves = { λ c v i s. link_moved (negotiate_att_mtu c.mtu) v.default_att_mtu i v.pool.free s };

    fn rule(&self) -> Rule {
        Rule::Live(self.handle)
    }

    fn absent(&self, _view: TableView) -> Result<u16, Refusal> {
        Ok(ConnectionStorage::DEFAULT_ATT_MTU)
    }

    fn at(&self, view: TableView, _i: usize, s: ConnectionStorage) -> Local<u16> {
        let mut slot = s;
        slot.att_mtu = settled(view.default_att_mtu, self.mtu);
        slot_call::unshared(Ok(slot.att_mtu), Woken::Nobody, slot)
    }
}

pub fn negotiate_att_mtu(t: ConnectionManager, handle: u16, mtu: u16) -> Outcome<u16>
    ensures { outcome_of one_value result ≡ run (on_link (negotiate_att_mtu mtu) handle) t }
{
    slot_call::resolve(t, &NegotiateAttMtuCall { handle, mtu })
}

// ---- get_stored_att_mtu

#[derive(Clone, Copy)]
pub struct GetStoredAttMtuCall {
    pub handle: u16,
}

impl SlotCall for GetStoredAttMtuCall {
    type Gives = u16;

    ghost values = { one_value };

    ghost call = { λ c. on_link get_stored_att_mtu c.handle };

    ghost test = { λ c. fits by_live c.handle };

    ghost none = { λ c v. absent get_stored_att_mtu v.default_att_mtu };

    ghost done = { λ c v i s. local get_stored_att_mtu v.default_att_mtu i s };

    ghost runs = { λ c t. refl };

    ghost moves = { λ c v i s. link_moved get_stored_att_mtu v.default_att_mtu i v.pool.free s };

    fn rule(&self) -> Rule {
        Rule::Live(self.handle)
    }

    // A handle that is not live is answered as a link without a stored number.
    fn absent(&self, _view: TableView) -> Result<u16, Refusal> {
        Ok(ConnectionStorage::DEFAULT_ATT_MTU)
    }

    fn at(&self, _view: TableView, _i: usize, s: ConnectionStorage) -> Local<u16> {
        slot_call::unshared(Ok(att_mtu::answered(s.att_mtu)), Woken::Nobody, s)
    }
}

impl LookCall for GetStoredAttMtuCall {
    ghost looks = { λ c v i s. (refl, refl) };
}

pub fn get_stored_att_mtu(t: ConnectionManager, handle: u16) -> Look<u16>
    ensures { look_of one_value result t ≡ run (on_link get_stored_att_mtu handle) t }
{
    slot_call::resolve_look(&t, &GetStoredAttMtuCall { handle })
}
