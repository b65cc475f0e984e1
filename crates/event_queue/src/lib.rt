// The events of a link, named as in `connection.rs`, and the queue of a slot that holds them.
#![tactic(auto)]

ghost use Rattle.std.specs.Prelude.{◌≡◌, if◌then◌else◌, Ok, Err};
ghost use Rattle.event_queue.specs.Queue.{phy_value, empty_queue, pushed, popped};

#[derive(Clone, Copy)]
pub enum PhyKind {
    Le1M,
    Le2M,
    LeCoded,
}

impl From<PhyKind> for u8 {
    fn from(kind: PhyKind) -> u8
        ensures { result ≡ phy_value kind }
    {
        match kind {
            PhyKind::Le1M => 1,
            PhyKind::Le2M => 2,
            PhyKind::LeCoded => 3,
        }
    }
}

// The 16-bit fields stand first: an entry then takes 24 bytes and not 32. Answers give an event's values in the order of the Rust.
#[derive(Clone, Copy)]
pub enum ConnectionEvent {
    Disconnected {
        reason: u8,
    },
    PhyUpdated {
        tx_phy: PhyKind,
        rx_phy: PhyKind,
    },
    ConnectionParamsUpdated {
        peripheral_latency: u16,
        conn_interval: u64,
        supervision_timeout: u64,
    },
    SubratingParamsUpdated {
        subrate_factor: u16,
        peripheral_latency: u16,
        continuation_number: u16,
        supervision_timeout: u64,
    },
    DataLengthUpdated {
        max_tx_octets: u16,
        max_tx_time: u16,
        max_rx_octets: u16,
        max_rx_time: u16,
    },
    ConnectionRateChanged {
        subrate_factor: u16,
        peripheral_latency: u16,
        continuation_number: u16,
        conn_interval: u64,
        supervision_timeout: u64,
    },
}

// The oldest event stands first. In a reached table, a place past the last event holds the fresh entry, a disconnection of reason 0: it takes no heap, as in the
// Rust.
#[derive(Clone, Copy)]
pub struct EventQueue {
    pub entries: [ConnectionEvent; EventQueue::SIZE],
    pub len: usize,
}

impl EventQueue {
    pub const SIZE: usize = 4;

    pub fn new() -> Self
        ensures { result ≡ empty_queue }
    {
        let fresh = ConnectionEvent::Disconnected { reason: 0 };
        EventQueue {
            entries: [fresh; EventQueue::SIZE],
            len: 0,
        }
    }

    // A full queue stays as it is: the event comes back, and is lost.
    pub fn push(&mut self, event: ConnectionEvent) -> Result<(), ConnectionEvent>
        ensures queue { self.new ≡ (pushed self.old event).queue }
        ensures answer { result ≡ (if (pushed self.old event).full then Err event else Ok tt) }
    {
        let n = self.len;
        if EventQueue::SIZE <= n {
            return Err(event);
        }
        self.entries[n] = event;
        self.len = n + 1;
        Ok(())
    }

    pub fn pop(&mut self) -> Option<ConnectionEvent>
        ensures queue { self.new ≡ (popped self.old).queue }
        ensures oldest { result ≡ (popped self.old).oldest }
    {
        let n = self.len;
        if n == 0 {
            return None;
        }
        let [first, a, b, c] = self.entries;
        let fresh = ConnectionEvent::Disconnected { reason: 0 };
        *self = EventQueue {
            entries: [a, b, c, fresh],
            len: n - 1,
        };
        Some(first)
    }
}
