// What a received message, a recording or the roster gives.
use crate::answer::{Answer, Values};
use crate::page::Page;
use arrayvec::ArrayVec;
use host_att::AttGives;
use host_event::EventGives;
use host_recording::ReplayError;
use recordings::ReplayCounts;
use refusal::Refusal;
use slot::ConnectionManager;

impl Values for EventGives {
    fn put_values(&self, page: &mut Page) {
        match self {
            EventGives::Done => {}
            EventGives::Completed(c) => page.put_numbers(&[c.applied as u64, c.skipped as u64]),
        }
    }
}

// What an ATT message gives; an indication gives its value too, which stands in the message.
#[derive(Drop)]
pub struct AttGiven<'a> {
    pub gives: AttGives,
    pub message: &'a [u8],
}

impl Values for AttGiven<'_> {
    fn put_values(&self, page: &mut Page) {
        match self.gives {
            AttGives::Done => {}
            AttGives::Mtu(mtu) => page.put_numbers(&[mtu as u64]),
            AttGives::HandleValueInd(attribute) => {
                page.put_numbers(&[attribute as u64]);
                page.put_hex(att_pdu::indication_value(self.message));
            }
        }
    }
}

// The records run, passed over and refused.
impl Values for ReplayCounts {
    fn put_values(&self, page: &mut Page) {
        page.put_numbers(&[
            self.run as u64,
            self.passed_over as u64,
            self.refused as u64,
        ]);
    }
}

// The number of a record that is not whole has values too.
impl Answer for Result<ReplayCounts, ReplayError> {
    fn put(&self, page: &mut Page) {
        match self {
            Ok(counts) => {
                page.put(b"0");
                counts.put_values(page);
            }
            Err(ReplayError::Setup) => page.put(b"8"),
            Err(ReplayError::Header) => page.put(b"11"),
            Err(ReplayError::Record(counts)) => {
                page.put(b"12");
                counts.put_values(page);
            }
        }
    }
}

// Sixteen slots have 48 bytes.
#[derive(Drop)]
pub struct RosterBytes(ArrayVec<u8, 48>);

impl Values for RosterBytes {
    fn put_values(&self, page: &mut Page) {
        page.put_hex(self.0.as_slice());
    }
}

pub fn roster(t: ConnectionManager) -> Result<RosterBytes, Refusal> {
    let mut bytes = ArrayVec::from([0u8; 48]);
    let len = roster::roster(t, bytes.as_mut_slice()).answer?;
    bytes.truncate(len);
    Ok(RosterBytes(bytes))
}
