// The messages, by their values.
// `alloc` stays an argument, the first of what allocates, as in std: a struct of it and some bytes would be made anew at each call.
use crate::print::Hex;
use att_pdu::{AttMessage, AttPdu};
use completed_packets::ConnHandleCompletedPackets;
use hci::HciEvent;
use refusal::Refusal;
use std::alloc::{AllocError, Global};
use std::fmt;
use std::fmt::{Display, Formatter};

#[derive(Drop)]
pub enum Message {
    Event(HciEvent),
    CompletedPackets(Vec<ConnHandleCompletedPackets>),
    Pdu(AttPdu),
    Indication { handle: u16, value: Vec<u8> },
}

impl Message {
    // The event that the bytes are.
    pub fn hci(alloc: Global, s: &[u8]) -> Result<Option<Message>, AllocError> {
        if let Some(event) = hci_read::read(s) {
            return Ok(Some(Message::Event(event)));
        }
        let Some(n) = completed_packets::read(s) else {
            return Ok(None);
        };
        let pairs = (0..n).map(|i| completed_packets::pair_in(s, i));
        Ok(Some(Message::CompletedPackets(pairs.collect(alloc)?)))
    }

    // The same of ATT.
    pub fn att(alloc: Global, s: &[u8]) -> Result<Option<Message>, AllocError> {
        let message = match att_pdu::read(s) {
            None => return Ok(None),
            Some(AttMessage::Pdu(pdu)) => Message::Pdu(pdu),
            Some(AttMessage::HandleValueInd(handle)) => Message::Indication {
                handle,
                value: Vec::from_slice(alloc, att_pdu::indication_value(s))?,
            },
        };
        Ok(Some(message))
    }

    // An arm for each message, with its own values.
    pub fn write(&self, room: &mut [u8]) -> Result<usize, Refusal> {
        match self {
            Message::Event(event) => hci_write::write(*event, room),
            Message::CompletedPackets(pairs) => completed_packets_write::write(pairs, room),
            Message::Pdu(pdu) => att_pdu_write::write(*pdu, room),
            Message::Indication { handle, value } => {
                att_pdu_write::write_handle_value_ind(*handle, value, room)
            }
        }
    }
}

// 0, its codes and its fields; of Number Of Completed Packets how many pairs there are and these. The value of an indication stands
// apart.
impl Display for Message {
    fn fmt<W: fmt::Write>(&self, f: &mut Formatter<W>) -> fmt::Result {
        match self {
            Message::Event(HciEvent::DisconnectionComplete(d)) => {
                write!(f, "0 5 {} {} {}", d.status, d.handle, d.reason)
            }
            Message::Event(HciEvent::LeConnectionComplete(c)) => {
                let peer = c.peer_addr;
                let bytes = [peer.0, peer.1, peer.2, peer.3, peer.4, peer.5];
                write!(
                    f,
                    "0 62 1 {} {} {} {} {} {} {} {} {}",
                    c.status,
                    c.handle,
                    c.role,
                    c.peer_addr_kind,
                    Hex(&bytes),
                    c.conn_interval,
                    c.peripheral_latency,
                    c.supervision_timeout,
                    c.central_clock_accuracy,
                )
            }
            Message::Event(HciEvent::LeConnectionUpdateComplete(u)) => write!(
                f,
                "0 62 3 {} {} {} {} {}",
                u.status, u.handle, u.conn_interval, u.peripheral_latency, u.supervision_timeout,
            ),
            Message::CompletedPackets(pairs) => {
                write!(f, "0 19 {}", pairs.len())?;
                for pair in pairs {
                    write!(f, " {} {}", pair.handle, pair.num_completed_packets)?;
                }
                Ok(())
            }
            Message::Pdu(AttPdu::ExchangeMtuReq(mtu)) => write!(f, "0 2 {mtu}"),
            Message::Pdu(AttPdu::ExchangeMtuRsp(mtu)) => write!(f, "0 3 {mtu}"),
            Message::Pdu(AttPdu::HandleValueCfm) => f.write_str("0 30"),
            Message::Indication { handle, .. } => write!(f, "0 29 {handle}"),
        }
    }
}
