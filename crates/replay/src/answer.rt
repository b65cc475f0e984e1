// What a line's answer is: the number of a refusal, or 0 and the values of what is given.
use crate::page::Page;
use calls::CallAnswer;
use event_queue::ConnectionEvent;
use refusal::Refusal;
use slot::{AclSendLock, DisconnectRequest, PacketGrant, PoolGrant};
use slot_call::Ended;

// What a call gives.
pub trait Values {
    // Its values, each behind a space.
    fn put_values(&self, page: &mut Page);
}

pub trait Answer {
    fn put(&self, page: &mut Page);
}

impl<T: Values> Answer for Result<T, Refusal> {
    fn put(&self, page: &mut Page) {
        match self {
            Ok(given) => {
                page.put(b"0");
                given.put_values(page);
            }
            Err(refusal) => page.put_number(u8::from(*refusal) as u64),
        }
    }
}

impl Answer for CallAnswer {
    fn put(&self, page: &mut Page) {
        match self {
            CallAnswer::Connect(a)
            | CallAnswer::IncRef(a)
            | CallAnswer::DecRef(a)
            | CallAnswer::RequestDisconnect(a)
            | CallAnswer::RequestHandleDisconnect(a)
            | CallAnswer::WithdrawDisconnect(a)
            | CallAnswer::Disconnected(a)
            | CallAnswer::PostHandleEvent(a)
            | CallAnswer::ConfirmSent(a)
            | CallAnswer::PoolConfirmSent(a)
            | CallAnswer::SetLinkCredits(a)
            | CallAnswer::AcquireIndicationSlot(a)
            | CallAnswer::ReleaseIndicationSlot(a)
            | CallAnswer::SignalIndicationConfirmation(a)
            | CallAnswer::WaitIndicationConfirmation(a) => a.put(page),
            CallAnswer::Confirm(a)
            | CallAnswer::UnlockAclSend(a)
            | CallAnswer::GrantEnd(a)
            | CallAnswer::PoolGrantEnd(a) => a.put(page),
            CallAnswer::PollAccept(a)
            | CallAnswer::GetConnectedHandle(a)
            | CallAnswer::GetConnectionByPeerAddress(a) => a.put(page),
            CallAnswer::ExchangeAttMtu(a)
            | CallAnswer::GetAttMtuHandle(a)
            | CallAnswer::NegotiateAttMtu(a)
            | CallAnswer::GetStoredAttMtu(a) => a.map(|mtu| mtu as usize).put(page),
            CallAnswer::TotalLost(a) => a.map(|lost| lost as usize).put(page),
            CallAnswer::HasLinkCredits(a) => a.map(|has| has as usize).put(page),
            CallAnswer::PollDisconnecting(a) => a.put(page),
            CallAnswer::PollAcquireAclSendLock(a) => a.put(page),
            CallAnswer::PollRequestToSend(a) => a.put(page),
            CallAnswer::PollRequestFromPool(a) => a.put(page),
            CallAnswer::Next(a) => a.put(page),
        }
    }
}

impl Values for () {
    fn put_values(&self, _page: &mut Page) {}
}

// Any number: an answer of another type is made one.
impl Values for usize {
    fn put_values(&self, page: &mut Page) {
        page.put_numbers(&[*self as u64]);
    }
}

impl Values for Ended {
    fn put_values(&self, page: &mut Page) {
        match self {
            Ended::Stale => page.put_numbers(&[1]),
            Ended::Done => {}
        }
    }
}

impl Values for DisconnectRequest {
    fn put_values(&self, page: &mut Page) {
        page.put_numbers(&[
            self.index as u64,
            self.handle as u64,
            u8::from(self.reason) as u64,
            self.life as u64,
        ]);
    }
}

impl Values for AclSendLock {
    fn put_values(&self, page: &mut Page) {
        page.put_numbers(&[self.handle as u64, self.index as u64, self.life as u64]);
    }
}

impl Values for PacketGrant {
    fn put_values(&self, page: &mut Page) {
        page.put_numbers(&[
            self.handle as u64,
            self.packets as u64,
            self.index as u64,
            self.life as u64,
        ]);
    }
}

// The values of a link's grant, of which it is a type of its own.
impl Values for PoolGrant {
    fn put_values(&self, page: &mut Page) {
        let PoolGrant {
            handle,
            packets,
            index,
            life,
        } = *self;
        let values = PacketGrant {
            handle,
            packets,
            index,
            life,
        };
        values.put_values(page);
    }
}

impl Values for ConnectionEvent {
    fn put_values(&self, page: &mut Page) {
        page.put_event(*self);
    }
}
