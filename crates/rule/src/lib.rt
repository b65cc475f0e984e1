// The rules by which calls search, and whether a slot fits one.
#![tactic(auto)]

ghost use Rattle.std.specs.Prelude.{◌≡◌, ◌&&◌};
ghost use Rattle.model.specs.Calls.{same_addr, same_address};
ghost use Rattle.rule.specs.Rule.{test_of};

use slot::{Address, BdAddr, ConnectionStorage, LeConnRole};

// Which slot a call is about: that at an index, or the lowest that fits.
#[derive(Clone, Copy)]
pub enum Rule {
    Index(usize),
    Live(u16),
    Connected(u16),
    Open(u16),
    Free,
    Requesting,
    Peer(Address),
    Accepting(LeConnRole),
}

// By hand, since a derive would compare the bytes by std's code, and a library calls none.
fn same_addr(a: BdAddr, b: BdAddr) -> bool
    ensures { result ≡ same_addr a b }
{
    a.0 == b.0 && a.1 == b.1 && a.2 == b.2 && a.3 == b.3 && a.4 == b.4 && a.5 == b.5
}

// Equal kind byte and equal six address bytes; by hand for the same reason.
pub fn same_address(a: Address, b: Address) -> bool
    ensures { result ≡ same_address a b }
{
    a.kind == b.kind && same_addr(a.addr, b.addr)
}

// Whether the slot at an index is one that the rule is about.
pub fn fits(rule: Rule, i: usize, s: ConnectionStorage) -> bool
    ensures { result ≡ test_of rule i s }
{
    match rule {
        Rule::Index(n) => i == n,
        Rule::Live(h) => s.state.is_live() && s.handle == h,
        Rule::Connected(h) => s.state.is_connected() && s.handle == h,
        Rule::Open(h) => s.state.is_open() && s.handle == h,
        Rule::Free => !s.state.is_open() && s.refcount == 0,
        Rule::Requesting => s.state.is_requesting(),
        Rule::Peer(a) => s.state.is_connected() && same_address(a, s.peer_identity),
        Rule::Accepting(role) => s.state.is_connecting() && s.role == role,
    }
}
