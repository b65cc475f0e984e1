// The ATT messages written as bytes into a lent slice.
#![tactic(auto)]

ghost use Rattle.std.specs.Prelude.{◌≡◌, true, ◌∷◌};
ghost use Rattle.wire.specs.Wire.{le16, write_reply, writing, written};
ghost use Rattle.att_pdu.specs.Format.{message_bytes, message_of_form, handle_value_ind};
ghost use Rattle.att_pdu.specs.Read.{pdu_message};

use att_pdu::{
    ATT_EXCHANGE_MTU_REQ, ATT_EXCHANGE_MTU_RSP, ATT_HANDLE_VALUE_CFM, ATT_HANDLE_VALUE_IND, AttPdu,
};
use limits::Field;
use refusal::Refusal;

// An opcode, a byte of the wire, and an MTU.
fn write_mtu(code: u8, mtu: u16, out: &mut [u8]) -> Result<usize, Refusal>
    ensures reply { write_reply result ≡ writing true (code ∷ le16 mtu) out.old }
    ensures bytes { out.new ≡ written true (code ∷ le16 mtu) out.old }
{
    let message = [code, wire::low_byte(mtu), wire::high_byte(mtu)];
    wire::put(out, &message)
}

// Puts one of the three at the start of a slice.
pub fn write(p: AttPdu, out: &mut [u8]) -> Result<usize, Refusal>
    ensures reply { write_reply result ≡ writing (message_of_form (pdu_message p)) (message_bytes (pdu_message p)) out.old }
    ensures bytes { out.new ≡ written (message_of_form (pdu_message p)) (message_bytes (pdu_message p)) out.old }
{
    match p {
        AttPdu::ExchangeMtuReq(mtu) => write_mtu(ATT_EXCHANGE_MTU_REQ, mtu, out),
        AttPdu::ExchangeMtuRsp(mtu) => write_mtu(ATT_EXCHANGE_MTU_RSP, mtu, out),
        AttPdu::HandleValueCfm => {
            let message = [ATT_HANDLE_VALUE_CFM];
            wire::put(out, &message)
        }
    }
}

// Puts an indication at the start of a slice: its opcode and handle, and its value straight behind them.
pub fn write_handle_value_ind(handle: u16, value: &[u8], out: &mut [u8]) -> Result<usize, Refusal>
    ensures reply { write_reply result ≡ writing (message_of_form (handle_value_ind handle value.now)) (message_bytes (handle_value_ind handle value.now)) out.old }
    ensures bytes { out.new ≡ written (message_of_form (handle_value_ind handle value.now)) (message_bytes (handle_value_ind handle value.now)) out.old }
{
    let n = value.len();
    if !limits::within(Field::ValueLen, n) {
        return Err(Refusal::Packet);
    }
    let total = 3 + n;
    if out.len() < total {
        return Err(Refusal::Space);
    }
    let start = [
        ATT_HANDLE_VALUE_IND,
        wire::low_byte(handle),
        wire::high_byte(handle),
    ];
    // There is room for both.
    let _ = wire::put(out, &start);
    let _ = wire::put(&mut out[3..], value);
    Ok(total)
}
