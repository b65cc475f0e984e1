// Why a line is no call, and how the output says it.
use std::fmt;
use std::fmt::{Display, Formatter};
use thiserror::Error;

#[derive(Clone, Copy, Debug, Error)]
pub enum Fault {
    #[error("unknown word")]
    UnknownWord,
    #[error("an empty word: two spaces, or one at an end")]
    EmptyWord,
    #[error("too many words")]
    TooManyWords,
    #[error("longer than 1,200 bytes")]
    TooLong,
    #[error("no table yet")]
    NoTable,
    #[error("ADDRESS is not 12 hexadecimal digits")]
    NotAddress,
    #[error("BYTES is not hexadecimal, two digits a byte")]
    NotHexadecimal,
    #[error("{0} is missing: too few words")]
    Missing(Argument),
    #[error("{0} is not digits")]
    NotDigits(Argument),
    #[error("{0} is too large")]
    TooLarge(Argument),
    #[error("{0} has no such value")]
    NoSuchValue(Argument),
}

// An argument, by its name in docs/HISTORY.md.
#[derive(Clone, Copy, Debug)]
pub enum Argument {
    Slots,
    PacketMtu,
    Handle,
    Kind,
    Address,
    Role,
    Interval,
    Latency,
    Timeout,
    Index,
    Reason,
    Status,
    Event,
    Tx,
    Rx,
    Factor,
    Continuation,
    TxOctets,
    TxTime,
    RxOctets,
    RxTime,
    Packets,
    Sent,
    Credits,
    Mtu,
    Bytes,
    Life,
}

impl Argument {
    fn name(self) -> &'static str {
        match self {
            Argument::Slots => "SLOTS",
            Argument::PacketMtu => "PACKET_MTU",
            Argument::Handle => "HANDLE",
            Argument::Kind => "KIND",
            Argument::Address => "ADDRESS",
            Argument::Role => "ROLE",
            Argument::Interval => "INTERVAL",
            Argument::Latency => "LATENCY",
            Argument::Timeout => "TIMEOUT",
            Argument::Index => "INDEX",
            Argument::Reason => "REASON",
            Argument::Status => "STATUS",
            Argument::Event => "EVENT",
            Argument::Tx => "TX",
            Argument::Rx => "RX",
            Argument::Factor => "FACTOR",
            Argument::Continuation => "CONTINUATION",
            Argument::TxOctets => "TX_OCTETS",
            Argument::TxTime => "TX_TIME",
            Argument::RxOctets => "RX_OCTETS",
            Argument::RxTime => "RX_TIME",
            Argument::Packets => "PACKETS",
            Argument::Sent => "SENT",
            Argument::Credits => "CREDITS",
            Argument::Mtu => "MTU",
            Argument::Bytes => "BYTES",
            Argument::Life => "LIFE",
        }
    }
}

impl Display for Argument {
    fn fmt<W: fmt::Write>(&self, f: &mut Formatter<W>) -> fmt::Result {
        f.write_str(self.name())
    }
}
