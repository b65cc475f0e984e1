// A record of a recording, received by the table.
#![tactic(auto)]

ghost use Rattle.std.specs.Prelude.{◌≡◌};
ghost use Rattle.model.specs.Answer.{Refusal};
ghost use Rattle.messages.specs.Received.{refused_with, received};
ghost use Rattle.received.specs.Answer.{received_of};
ghost use Rattle.host_event.specs.Answer.{event_gives_values};
ghost use Rattle.recordings.specs.Recording.{received_record};

use host_event::EventGives;
use received::Received;
use refusal::Refusal;
use slot::ConnectionManager;

fn no_event(t: ConnectionManager) -> Received<EventGives>
    ensures { received_of event_gives_values result ≡ refused_with Refusal.Packet t }
{
    received::refused(Refusal::Packet, t)
}

// `part`: the record's bytes. 9 where they hold no event: that record is passed over.
pub fn received_record(
    t: ConnectionManager,
    datalink: u32,
    flags: u32,
    part: &[u8],
) -> Received<EventGives>
    ensures { received_of event_gives_values result ≡ received_record received datalink flags part.now t }
{
    if flags % 4 != 3 {
        return no_event(t);
    }
    if datalink != 1002 {
        return host::received(t, part);
    }
    if part.len() == 0 {
        return no_event(t);
    }
    if part[0] != 0x04 {
        return no_event(t);
    }
    host::received(t, &part[1..])
}
