// What a record is, as text.
use btsnoop_read::RecordHead;
use hci::{DisconnectionComplete, HciEvent, LeConnectionComplete, LeConnectionUpdateComplete};
use slot::BdAddr;
use std::fmt;
use std::fmt::{Display, Formatter};

// An event that is read; Number Of Completed Packets by its count of pairs.
#[derive(Clone, Copy)]
enum Event {
    Other(HciEvent),
    CompletedPackets(u8),
}

fn event_of(s: &[u8]) -> Option<Event> {
    match hci_read::read(s) {
        Some(event) => Some(Event::Other(event)),
        None => completed_packets::read(s).map(Event::CompletedPackets),
    }
}

// ---- the events that are read

#[derive(Drop)]
struct Disconnection(DisconnectionComplete);

impl Display for Disconnection {
    fn fmt<W: fmt::Write>(&self, f: &mut Formatter<W>) -> fmt::Result {
        let d = self.0;
        write!(
            f,
            "Disconnection Complete status {} handle {} reason {}",
            d.status, d.handle, d.reason
        )
    }
}

// The most significant byte, the last on the wire, is written first.
#[derive(Drop)]
struct PeerAddress(BdAddr);

impl Display for PeerAddress {
    fn fmt<W: fmt::Write>(&self, f: &mut Formatter<W>) -> fmt::Result {
        let BdAddr(a, b, c, d, e, g) = self.0;
        write!(f, "{g:02X}{e:02X}{d:02X}{c:02X}{b:02X}{a:02X}")
    }
}

#[derive(Drop)]
struct Connection(LeConnectionComplete);

impl Display for Connection {
    fn fmt<W: fmt::Write>(&self, f: &mut Formatter<W>) -> fmt::Result {
        let c = self.0;
        let status = c.status;
        let handle = c.handle;
        let role = c.role;
        let kind = c.peer_addr_kind;
        let peer = PeerAddress(c.peer_addr);
        write!(
            f,
            "LE Connection Complete status {status} handle {handle} role {role} peer {kind} {peer}"
        )?;
        let interval = c.conn_interval;
        let latency = c.peripheral_latency;
        let timeout = c.supervision_timeout;
        let accuracy = c.central_clock_accuracy;
        write!(
            f,
            " interval {interval} latency {latency} timeout {timeout} accuracy {accuracy}"
        )
    }
}

#[derive(Drop)]
struct Update(LeConnectionUpdateComplete);

impl Display for Update {
    fn fmt<W: fmt::Write>(&self, f: &mut Formatter<W>) -> fmt::Result {
        let u = self.0;
        let status = u.status;
        let handle = u.handle;
        let interval = u.conn_interval;
        let latency = u.peripheral_latency;
        let timeout = u.supervision_timeout;
        write!(
            f,
            "LE Connection Update Complete status {status} handle {handle} interval {interval} latency {latency} timeout {timeout}"
        )
    }
}

// `count` pairs of the event `bytes`.
#[derive(Drop)]
struct Pairs<'a> {
    bytes: &'a [u8],
    count: u8,
}

impl Display for Pairs<'_> {
    fn fmt<W: fmt::Write>(&self, f: &mut Formatter<W>) -> fmt::Result {
        f.write_str("Number Of Completed Packets")?;
        for i in 0..self.count {
            let pair = completed_packets::pair_in(self.bytes, i);
            write!(
                f,
                " handle {} packets {}",
                pair.handle, pair.num_completed_packets
            )?;
        }
        Ok(())
    }
}

// ---- a record

// A record whose bytes those are.
#[derive(Drop)]
pub struct Record<'a> {
    pub datalink: u32,
    pub head: RecordHead,
    pub bytes: &'a [u8],
}

impl<'a> Record<'a> {
    // With datalink 1002 the byte 04 stands in front of an event.
    fn event_bytes(&self) -> Option<&'a [u8]> {
        match (self.datalink, self.bytes) {
            (1002, [0x04, event @ ..]) => Some(event),
            (1002, _) => None,
            (_, event) => Some(event),
        }
    }

    // How many bytes of it there are.
    fn write_lengths<W: fmt::Write>(&self, what: &str, f: &mut Formatter<W>) -> fmt::Result {
        write!(
            f,
            "{what} {} of {} bytes",
            self.head.included, self.head.original
        )
    }
}

impl Display for Record<'_> {
    fn fmt<W: fmt::Write>(&self, f: &mut Formatter<W>) -> fmt::Result {
        if self.head.flags % 4 != 3 {
            write!(f, "not an event: flags {}", self.head.flags)?;
            return self.write_lengths(",", f);
        }
        let Some(bytes) = self.event_bytes() else {
            return self.write_lengths("no event byte:", f);
        };
        match event_of(bytes) {
            None => self.write_lengths("an event that is not read:", f),
            Some(Event::CompletedPackets(count)) => write!(f, "{}", Pairs { bytes, count }),
            Some(Event::Other(HciEvent::DisconnectionComplete(d))) => {
                write!(f, "{}", Disconnection(d))
            }
            Some(Event::Other(HciEvent::LeConnectionComplete(c))) => write!(f, "{}", Connection(c)),
            Some(Event::Other(HciEvent::LeConnectionUpdateComplete(u))) => {
                write!(f, "{}", Update(u))
            }
        }
    }
}
