// A received ATT message, as bytes, run on the table for the link that it came from.
// The table and the handle are the arguments of the calls that are run, and stay two: together they are nothing.
#![tactic(auto)]

ghost use Rattle.std.specs.Prelude.{◌≡◌, [], ◌∷◌};
ghost use Rattle.std.proofs.Math.Option.{some};
ghost use Rattle.att_pdu.specs.Format.{handle_value_ind};
ghost use Rattle.att_pdu.specs.Read.{pdu_message};
ghost use Rattle.model.specs.Answer.{no_value, one_value};
ghost use Rattle.model.specs.Link.{negotiate_att_mtu, signal_indication_confirmation};
ghost use Rattle.model.specs.Calls.{on_link};
ghost use Rattle.messages.specs.Received.{run_all, only_reply, att_reply, received_att_as, received_att};
ghost use Rattle.received.specs.Answer.{received_of};
ghost use Rattle.host_att.specs.Answer.{att_gives_values};

use att_pdu::{AttMessage, AttPdu};
use received::{FromCall, Received};
use refusal::Refusal;
use slot::ConnectionManager;

// What an ATT message gives. An indication's value is a part of the bytes: `att_pdu::indication_value`.
#[derive(Clone, Copy)]
pub enum AttGives {
    Mtu(u16),
    Done,
    HandleValueInd(u16),
}

impl FromCall<u16> for AttGives {
    ghost values = { att_gives_values };

    ghost call_values = { one_value };

    fn from_call(mtu: u16) -> Self {
        AttGives::Mtu(mtu)
    }
}

impl FromCall<()> for AttGives {
    ghost values = { att_gives_values };

    ghost call_values = { no_value };

    fn from_call(_a: ()) -> Self {
        AttGives::Done
    }
}

// A request and a response run the same exchange, that of the specification.
fn exchange(t: ConnectionManager, handle: u16, mtu: u16) -> Received<AttGives>
    ensures { received_of att_gives_values result ≡ run_all only_reply (on_link (negotiate_att_mtu mtu) handle ∷ []) t }
{
    let o = negotiated_mtu::negotiate_att_mtu(t, handle, mtu);
    received::one(o)
}

fn signal(t: ConnectionManager, handle: u16) -> Received<AttGives>
    ensures { received_of att_gives_values result ≡ run_all only_reply (on_link signal_indication_confirmation handle ∷ []) t }
{
    let o = signal_indication_confirmation::signal_indication_confirmation(t, handle);
    received::one(o)
}

fn pdu(t: ConnectionManager, handle: u16, p: AttPdu) -> Received<AttGives>
    ensures { received_of att_gives_values result ≡ received_att_as handle (some (pdu_message p)) t }
{
    match p {
        AttPdu::ExchangeMtuReq(mtu) | AttPdu::ExchangeMtuRsp(mtu) => exchange(t, handle, mtu),
        AttPdu::HandleValueCfm => signal(t, handle),
    }
}

// An indication runs nothing, whatever its value; the table is checked all the same.
fn indication(t: ConnectionManager, attribute: u16) -> Received<AttGives>
    ensures { received_of att_gives_values result ≡ run_all (att_reply (handle_value_ind attribute [])) [] t }
{
    received::idle(t, AttGives::HandleValueInd(attribute))
}

// 9 first, then 8, then the answer of the call that the message runs. The handle is the link's, any 16 bits.
pub fn received_att(t: ConnectionManager, handle: u16, s: &[u8]) -> Received<AttGives>
    ensures { received_of att_gives_values result ≡ received_att handle s.now t }
{
    match att_pdu::read(s) {
        None => received::refused(Refusal::Packet, t),
        Some(AttMessage::Pdu(p)) => pdu(t, handle, p),
        Some(AttMessage::HandleValueInd(attribute)) => indication(t, attribute),
    }
}
