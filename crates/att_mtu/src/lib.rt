// A link's ATT MTU: exchanged, looked up.
#![tactic(auto)]

ghost use Rattle.std.specs.Prelude.{min, ◌≡◌, refl};
ghost use Rattle.model.specs.Answer.{one_value};
ghost use Rattle.model.specs.Find.{by_live, by_connected, fits};
ghost use Rattle.model.specs.Link.{exchange_att_mtu, get_att_mtu_handle, absent, local, mtu_of};
ghost use Rattle.model.specs.Calls.{run, on_link};
ghost use Rattle.model.proofs.Moved.{link_moved};
ghost use Rattle.table.specs.Answer.{outcome_of, look_of};

use refusal::Refusal;
use rule::Rule;
use slot::{ConnectionManager, ConnectionStorage, Woken};
use slot_call::{Local, LookCall, SlotCall, TableView};
use table::{Look, Outcome};

// The number that stands for a stored one: none is 0, and answered as 23.
pub fn answered(m: u16) -> u16
    ensures { result ≡ mtu_of m }
{
    if m == 0 {
        return ConnectionStorage::DEFAULT_ATT_MTU;
    }
    m
}

// ---- exchange_att_mtu

#[derive(Clone, Copy)]
pub struct ExchangeAttMtuCall {
    pub handle: u16,
    pub mtu: u16,
}

// `min` is a function of std's, and a library calls none.
pub fn lesser(a: u16, b: u16) -> u16
    ensures { result ≡ min a b }
{
    if a <= b {
        return a;
    }
    b
}

impl SlotCall for ExchangeAttMtuCall {
    type Gives = u16;

    ghost values = { one_value };

    ghost call = { λ c. on_link (exchange_att_mtu c.mtu) c.handle };

    ghost test = { λ c. fits by_live c.handle };

    ghost none = { λ c v. absent (exchange_att_mtu c.mtu) v.default_att_mtu };

    ghost done = { λ c v i s. local (exchange_att_mtu c.mtu) v.default_att_mtu i s };

    ghost runs = { λ c t. refl };

    ghost moves = { λ c v i s. link_moved (exchange_att_mtu c.mtu) v.default_att_mtu i v.pool.free s };

    fn rule(&self) -> Rule {
        Rule::Live(self.handle)
    }

    fn absent(&self, _view: TableView) -> Result<u16, Refusal> {
        Ok(self.mtu)
    }

    fn at(&self, view: TableView, _i: usize, s: ConnectionStorage) -> Local<u16> {
        let mut slot = s;
        slot.att_mtu = lesser(view.default_att_mtu, self.mtu);
        slot_call::unshared(Ok(answered(slot.att_mtu)), Woken::Nobody, slot)
    }
}

pub fn exchange_att_mtu(t: ConnectionManager, handle: u16, mtu: u16) -> Outcome<u16>
    ensures { outcome_of one_value result ≡ run (on_link (exchange_att_mtu mtu) handle) t }
{
    slot_call::resolve(t, &ExchangeAttMtuCall { handle, mtu })
}

// ---- get_att_mtu_handle

#[derive(Clone, Copy)]
pub struct GetAttMtuHandleCall {
    pub handle: u16,
}

impl SlotCall for GetAttMtuHandleCall {
    type Gives = u16;

    ghost values = { one_value };

    ghost call = { λ c. on_link get_att_mtu_handle c.handle };

    ghost test = { λ c. fits by_connected c.handle };

    ghost none = { λ c v. absent get_att_mtu_handle v.default_att_mtu };

    ghost done = { λ c v i s. local get_att_mtu_handle v.default_att_mtu i s };

    ghost runs = { λ c t. refl };

    ghost moves = { λ c v i s. link_moved get_att_mtu_handle v.default_att_mtu i v.pool.free s };

    fn rule(&self) -> Rule {
        Rule::Connected(self.handle)
    }

    fn absent(&self, view: TableView) -> Result<u16, Refusal> {
        Ok(view.default_att_mtu)
    }

    fn at(&self, _view: TableView, _i: usize, s: ConnectionStorage) -> Local<u16> {
        slot_call::unshared(Ok(answered(s.att_mtu)), Woken::Nobody, s)
    }
}

impl LookCall for GetAttMtuHandleCall {
    ghost looks = { λ c v i s. (refl, refl) };
}

pub fn get_att_mtu_handle(t: ConnectionManager, handle: u16) -> Look<u16>
    ensures { look_of one_value result t ≡ run (on_link get_att_mtu_handle handle) t }
{
    slot_call::resolve_look(&t, &GetAttMtuHandleCall { handle })
}
