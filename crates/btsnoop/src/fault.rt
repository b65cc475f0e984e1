// What stops a command, and what is told of a file.
use crate::number::NumberError;
use program_io::{Failure, TooLong};
use refusal::Refusal;
use std::alloc::AllocError;
use std::io;
use thiserror::Error;

#[derive(Debug, Drop, Error)]
pub enum Reason {
    #[error(transparent)]
    Number(#[from] NumberError),
    #[error(transparent)]
    Name(#[from] TooLong),
    #[error("{}", Failure(.0))]
    System(#[from] io::Error),
    #[error("longer than 1048576 bytes")]
    Long,
    #[error("no such table: SLOTS is 1 to 16, PACKET_MTU 4 to 65539, PACKETS 1 to 255")]
    Table,
    #[error("11: no recording of btsnoop, version 1, datalink 1001 or 1002")]
    Header,
    // The number of the record that is not whole, and where it stands.
    #[error("12: record {number}, at byte {at}, is cut short or has more included than original")]
    Record { number: u64, at: u64 },
    #[error("21: no recording by column: its pairs, counts or lengths disagree")]
    Columns,
    #[error("10: what is due is too long")]
    Space,
    #[error("an event that is not read")]
    Event,
    #[error("the recording is too long")]
    Recording,
    #[error("no recording is written")]
    Lines,
    #[error(transparent)]
    Memory(#[from(alloc)] AllocError),
}

// What turning a recording is refused with; but for these two it is 10.
impl From<Refusal> for Reason {
    fn from(refusal: Refusal) -> Reason {
        match refusal {
            Refusal::Header => Reason::Header,
            Refusal::Columns => Reason::Columns,
            _ => Reason::Space,
        }
    }
}

// It is told as `WHAT: REASON`.
#[derive(Drop)]
pub struct Fault<'a> {
    pub what: &'a [u8],
    pub reason: Reason,
}

impl<'a> Fault<'a> {
    pub fn new(what: &'a [u8], reason: impl Into<Reason>) -> Self {
        Fault {
            what,
            reason: reason.into(),
        }
    }
}
