// A grant is lowered by the packets that its holder sent.
#![tactic(auto)]

ghost use Rattle.std.specs.Prelude.{◌≡◌, ◌-◌};
ghost use Rattle.model.specs.Calls.{grant_confirmed};

use slot::PacketGrant;

// The packets less those sent, not below 0.
fn packets_left(packets: u32, sent: u32) -> u32
    ensures { result ≡ packets - sent }
{
    if sent < packets { packets - sent } else { 0 }
}

pub fn confirm(grant: &mut PacketGrant, sent: u32)
    ensures { grant.new ≡ grant_confirmed grant.old sent }
{
    grant.packets = packets_left(grant.packets, sent);
}

// The same by value: a grant of the function's own is lent.
pub fn confirmed(grant: PacketGrant, sent: u32) -> PacketGrant
    ensures { result ≡ grant_confirmed grant sent }
{
    let mut held = grant;
    confirm(&mut held, sent);
    held
}
