// A received HCI event, as bytes, run on the table.
#![tactic(auto)]

ghost use Rattle.std.specs.Prelude.{◌≡◌};
ghost use Rattle.messages.specs.Received.{received};
ghost use Rattle.received.specs.Answer.{received_of};
ghost use Rattle.host_event.specs.Answer.{event_gives_values};

use host_event::EventGives;
use received::Received;
use slot::ConnectionManager;

// 9 first, then 8, then the answer of the call that the event runs, or the counts of its pairs.
pub fn received(t: ConnectionManager, s: &[u8]) -> Received<EventGives>
    ensures { received_of event_gives_values result ≡ received s.now t }
{
    match hci_read::read(s) {
        None => host_pairs::received_pairs(t, s),
        Some(e) => host_event::received_event(t, e),
    }
}
