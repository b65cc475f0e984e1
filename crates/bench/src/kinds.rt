// The calls of each kind. All go to one link, and leave the table as they found it once each was made. The same stand in
// oracle/src/bench.rs.
use calls::Call;
use connect::NewLink;
use event_queue::ConnectionEvent;
use slot::{AclSendLock, Address, BdAddr, ConnParams, DisconnectRequest, LeConnRole, PacketGrant};
use state::DisconnectReason;

pub fn accept() -> Call {
    Call::PollAccept(LeConnRole::Peripheral)
}

pub fn updated() -> ConnectionEvent {
    ConnectionEvent::ConnectionParamsUpdated {
        conn_interval: 30000,
        peripheral_latency: 0,
        supervision_timeout: 2000000,
    }
}

// A link, by the index of its slot.
#[derive(Clone, Copy)]
pub struct Link {
    pub index: u8,
}

impl Link {
    pub fn handle(self) -> u16 {
        64 + self.index as u16
    }

    fn peer(self) -> Address {
        Address {
            kind: 1,
            addr: BdAddr(self.index, 34, 51, 68, 85, 102),
        }
    }

    pub fn connect(self) -> Call {
        let params = ConnParams {
            conn_interval: 30000,
            peripheral_latency: 0,
            supervision_timeout: 2000000,
        };
        Call::Connect(NewLink {
            handle: self.handle(),
            peer: self.peer(),
            role: LeConnRole::Peripheral,
            params,
        })
    }

    // In the slot's first life: only the calls of `life` begin another.
    pub fn lock(self) -> AclSendLock {
        AclSendLock {
            handle: self.handle(),
            index: self.index as usize,
            life: 1,
        }
    }

    fn grant(self) -> PacketGrant {
        PacketGrant {
            handle: self.handle(),
            packets: 1,
            index: self.index as usize,
            life: 1,
        }
    }

    fn ticket(self, life: u32) -> DisconnectRequest {
        DisconnectRequest {
            index: self.index as usize,
            handle: self.handle(),
            reason: DisconnectReason::RemoteUserTerminatedConn,
            life,
        }
    }

    // The n-th of the calls in which it is closed and made again: eight to a life.
    fn life(self, n: u64) -> Call {
        let handle = self.handle();
        match n % 8 {
            0 => Call::RequestHandleDisconnect(handle, DisconnectReason::RemoteUserTerminatedConn),
            1 => Call::PollDisconnecting,
            2 => {
                let life = 1 + n / 8 % 4294967295;
                Call::Confirm(self.ticket(life as u32))
            }
            3 => Call::Disconnected(handle, 19),
            4 => Call::Next(self.index),
            5 => Call::DecRef(self.index),
            6 => self.connect(),
            _ => accept(),
        }
    }
}

// What is called in turn.
#[derive(Clone, Copy)]
pub enum Kind {
    SendLock,
    Grant,
    LinkCredits,
    References,
    Handle,
    Peer,
    Event,
    AttMtu,
    IndicationSlot,
    Confirmation,
    Table,
    Life,
}

impl Kind {
    // The n-th call.
    pub fn call(self, n: u64, link: Link) -> Call {
        let handle = link.handle();
        match (self, n % 2) {
            (Kind::SendLock, 0) => Call::PollAcquireAclSendLock(handle),
            (Kind::SendLock, _) => Call::UnlockAclSend(link.lock()),
            (Kind::Grant, 0) => Call::PollRequestToSend(link.lock(), 1),
            (Kind::Grant, _) => Call::GrantEnd(link.grant()),
            (Kind::LinkCredits, 0) => Call::ConfirmSent(handle, 0),
            (Kind::LinkCredits, _) => Call::HasLinkCredits(handle, 1),
            (Kind::References, 0) => Call::IncRef(link.index),
            (Kind::Handle, 0) => Call::GetConnectedHandle(handle),
            (Kind::Peer, 0) => Call::GetConnectionByPeerAddress(link.peer()),
            (Kind::References | Kind::Handle | Kind::Peer, _) => Call::DecRef(link.index),
            (Kind::Event, 0) => Call::PostHandleEvent(handle, updated()),
            (Kind::Event, _) => Call::Next(link.index),
            (Kind::AttMtu, 0) => Call::ExchangeAttMtu(handle, 185),
            (Kind::AttMtu, _) => Call::GetAttMtuHandle(handle),
            (Kind::IndicationSlot, 0) => Call::AcquireIndicationSlot(link.index),
            (Kind::IndicationSlot, _) => Call::ReleaseIndicationSlot(link.index),
            (Kind::Confirmation, 0) => Call::SignalIndicationConfirmation(handle),
            (Kind::Confirmation, _) => Call::WaitIndicationConfirmation(link.index),
            (Kind::Table, 0) => Call::SetLinkCredits(10),
            (Kind::Table, _) => Call::PollDisconnecting,
            (Kind::Life, _) => link.life(n),
        }
    }
}
