// The ATT messages that are read and written: the MTU exchange, and the handle value indication with its confirmation. Here they
// are read; `att_pdu_write` writes them.
#![tactic(auto)]

ghost use Rattle.std.specs.Prelude.{◌≡◌, drop};
ghost use Rattle.att_pdu.specs.Read.{is_pdu, is_indication, message_in, message_of, message_reply, att_read_reply, value_of};

use limits::Field;

// A message whose values an enum can hold. The value of an indication is a part of the bytes.
#[derive(Clone, Copy)]
pub enum AttPdu {
    ExchangeMtuReq(u16),
    ExchangeMtuRsp(u16),
    HandleValueCfm,
}

// What the reader finds: one of the three, or an indication of this attribute.
#[derive(Clone, Copy)]
pub enum AttMessage {
    Pdu(AttPdu),
    HandleValueInd(u16),
}

// Opcodes.
pub const ATT_EXCHANGE_MTU_REQ: u8 = 0x02;

pub const ATT_EXCHANGE_MTU_RSP: u8 = 0x03;

pub const ATT_HANDLE_VALUE_IND: u8 = 0x1D;

pub const ATT_HANDLE_VALUE_CFM: u8 = 0x1E;

// An opcode, a byte of the wire, and n bytes, and nothing behind them.
fn is_pdu(code: u8, n: usize, s: &[u8]) -> bool
    ensures { result ≡ is_pdu code n s.now }
{
    s.len() == n && wire::byte_at(s, 0) == code
}

// An opcode, a handle, and a value that is not too long.
fn is_indication(s: &[u8]) -> bool
    ensures { result ≡ is_indication s.now }
{
    s.len() >= 3
        && wire::byte_at(s, 0) == ATT_HANDLE_VALUE_IND
        && limits::within(Field::ValueLen, s.len() - 3)
}

// The message that the bytes are, whatever the bytes.
pub fn read(s: &[u8]) -> Option<AttMessage>
    ensures message { message_of result (drop 3 s.now) ≡ message_in s.now }
    ensures reply { att_read_reply result ≡ message_reply (message_in s.now) }
{
    if is_pdu(ATT_EXCHANGE_MTU_REQ, 3, s) {
        return Some(AttMessage::Pdu(AttPdu::ExchangeMtuReq(wire::u16_at(s, 1))));
    }
    if is_pdu(ATT_EXCHANGE_MTU_RSP, 3, s) {
        return Some(AttMessage::Pdu(AttPdu::ExchangeMtuRsp(wire::u16_at(s, 1))));
    }
    if is_pdu(ATT_HANDLE_VALUE_CFM, 1, s) {
        return Some(AttMessage::Pdu(AttPdu::HandleValueCfm));
    }
    if is_indication(s) {
        return Some(AttMessage::HandleValueInd(wire::u16_at(s, 1)));
    }
    None
}

// The value of an indication, as a part of its bytes; an empty part of any other bytes.
pub fn indication_value(s: &[u8]) -> &[u8]
    ensures { result.now ≡ value_of (message_in s.now) }
{
    if is_indication(s) { &s[3..] } else { &s[..0] }
}
