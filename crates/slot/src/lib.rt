// The types of a link's slot and of the table of slots, named as in `connection_manager.rs` and
// `connection.rs`, and the functions of a slot.
#![tactic(auto)]

ghost use Rattle.std.specs.Prelude.{◌≡◌};
ghost use Rattle.slot.specs.Set.{set_state, set_subrating_params};
ghost use Rattle.slot.specs.Fresh.{fresh_slot};
ghost use Rattle.slot.specs.Role.{role_value};

use event_queue::EventQueue;
use pool::Pool;
use state::{ConnectionState, DisconnectReason};

#[derive(Clone, Copy, PartialEq, Eq)]
pub enum LeConnRole {
    Central,
    Peripheral,
}

impl From<LeConnRole> for u8 {
    fn from(role: LeConnRole) -> u8
        ensures { result ≡ role_value role }
    {
        match role {
            LeConnRole::Central => 0,
            LeConnRole::Peripheral => 1,
        }
    }
}

// Six address bytes, as they stand on the wire.
#[derive(Clone, Copy)]
pub struct BdAddr(pub u8, pub u8, pub u8, pub u8, pub u8, pub u8);

// The kind is the radio's byte, of which any value is kept and compared: no enum has one for each.
#[derive(Clone, Copy)]
pub struct Address {
    pub kind: u8,
    pub addr: BdAddr,
}

// Times are in microseconds.
#[derive(Clone, Copy)]
pub struct ConnParams {
    pub conn_interval: u64,
    pub peripheral_latency: u16,
    pub supervision_timeout: u64,
}

#[derive(Clone, Copy)]
pub struct SubratingParams {
    pub subrate_factor: u16,
    pub continuation_number: u16,
}

// The three flags are the Rust's, each beside no value of its own.
#[derive(Clone, Copy)]
pub struct ConnectionStorage {
    pub state: ConnectionState,
    pub handle: u16,
    // How often `connect` has taken the slot: locks, grants and tickets of another life are stale.
    pub life: u32,
    pub role: LeConnRole,
    pub peer_identity: Address,
    pub params: ConnParams,
    pub subrating_params: Option<SubratingParams>,
    // 0 is none, as in the Rust's NonZeroU16.
    pub att_mtu: u16,
    pub link_credits: u32,
    pub acl_send_locked: bool,
    pub refcount: u8,
    pub blocked_sends: u32,
    // Events that met the full queue since the last `connect`.
    pub lost: u32,
    // Packets of the pool that the link holds.
    pub pool_held: u8,
    pub indication_in_flight: bool,
    pub indication_cfm_received: bool,
    pub events: EventQueue,
}

// The table. Slots at or past `count` are padding: it is a value of fixed size and takes no heap, as in the Rust.
#[derive(Clone, Copy)]
pub struct ConnectionManager {
    pub connections: [ConnectionStorage; 16],
    pub count: usize,
    pub default_link_credits: u32,
    pub default_att_mtu: u16,
    pub pool: Pool,
}

// What the check of a table and a search in it find. Three ways to go on, each with a name: in a Result of an Option only one refusal of
// nineteen could ever stand, and Setup and Absent would be told apart at two depths.
#[derive(Clone, Copy)]
pub enum Located {
    Setup,
    Absent,
    At(usize),
}

// The waiters that a call wakes: one of the table's three, one of the four of the link at an index, or
// all four of it.
#[derive(Clone, Copy)]
pub enum Woken {
    Nobody,
    Central,
    Peripheral,
    Disconnect,
    LinkCredit(usize),
    AclSendLock(usize),
    IndicationSlot(usize),
    IndicationCfm(usize),
    Link(usize),
}

// The right to send on a link. Each of these four is ended at its slot, and in its life only.
#[derive(Clone, Copy)]
pub struct AclSendLock {
    pub handle: u16,
    pub index: usize,
    pub life: u32,
}

// Packets that a link may send.
#[derive(Clone, Copy)]
pub struct PacketGrant {
    pub handle: u16,
    pub packets: u32,
    pub index: usize,
    pub life: u32,
}

// Packets of the pool that a link may send: a type of its own, so that one cannot be ended as a grant of the link's.
#[derive(Clone, Copy)]
pub struct PoolGrant {
    pub handle: u16,
    pub packets: u32,
    pub index: usize,
    pub life: u32,
}

// A slot that asks to be disconnected.
#[derive(Clone, Copy)]
pub struct DisconnectRequest {
    pub index: usize,
    pub handle: u16,
    pub reason: DisconnectReason,
    pub life: u32,
}

impl ConnectionStorage {
    pub const CONNECTION_EVENT_QUEUE_SIZE: usize = EventQueue::SIZE;

    pub const DEFAULT_ATT_MTU: u16 = 23;

    // The fresh slot.
    pub fn new() -> Self
        ensures { result ≡ fresh_slot }
    {
        let peer_identity = Address {
            kind: 0,
            addr: BdAddr(0, 0, 0, 0, 0, 0),
        };
        let params = ConnParams {
            conn_interval: 0,
            peripheral_latency: 0,
            supervision_timeout: 0,
        };
        let events = EventQueue::new();
        ConnectionStorage {
            state: ConnectionState::Disconnected,
            handle: 0,
            life: 0,
            role: LeConnRole::Central,
            peer_identity,
            params,
            subrating_params: None,
            att_mtu: 0,
            link_credits: 0,
            acl_send_locked: false,
            refcount: 0,
            blocked_sends: 0,
            lost: 0,
            pool_held: 0,
            indication_in_flight: false,
            indication_cfm_received: false,
            events,
        }
    }

    // The slot with another state.
    pub fn with_state(self, state: ConnectionState) -> Self
        ensures { result ≡ set_state self state }
    {
        let mut slot = self;
        slot.state = state;
        slot
    }

    // The slot with another subrating pair, or none.
    pub fn with_subrating_params(self, subrating: Option<SubratingParams>) -> Self
        ensures { result ≡ set_subrating_params self subrating }
    {
        let mut slot = self;
        slot.subrating_params = subrating;
        slot
    }
}
