// The table made anew, and a slot put back into it.
#![tactic(auto)]

ghost use Rattle.std.specs.Prelude.{◌≡◌};
ghost use Rattle.model.specs.History.{new as new_of, refused as new_refused, fresh_with};
ghost use Rattle.table.specs.Resolve.{put_shared};
ghost use Rattle.model.specs.Answer.{no_value};
ghost use Rattle.table.specs.Answer.{outcome_of};
ghost use Rattle.slot.specs.declared.Woken.TheVariants.{Nobody};

use pool::{Pool, Share};
use refusal::Refusal;
use slot::{ConnectionManager, ConnectionStorage, Woken};
use std::alloc::AllocError;

// What a call gives or why it is refused, whom it wakes, and the table afterwards. `received::Received` is beside it and not it with a
// parameter for the waiters: the model has a record for each too, and a parameter would stand in the contract of every call.
pub struct Outcome<T> {
    pub answer: Result<T, Refusal>,
    pub woken: Woken,
    pub table: ConnectionManager,
}

// By hand, here and below: a derive would clone the Result by std's code, and a library calls none.
impl<T: Copy> Clone for Outcome<T> {
    fn clone(&self) -> Result<Self, AllocError> {
        Ok(*self)
    }
}

impl<T: Copy> Copy for Outcome<T> {}

// The same of a call that only looks, or that works on a lent table: the table is the caller's.
pub struct Look<T> {
    pub answer: Result<T, Refusal>,
    pub woken: Woken,
}

impl<T: Copy> Clone for Look<T> {
    fn clone(&self) -> Result<Self, AllocError> {
        Ok(*self)
    }
}

impl<T: Copy> Copy for Look<T> {}

impl<T> Look<T> {
    // Of a call that wakes nobody.
    pub fn waking_nobody(answer: Result<T, Refusal>) -> Self
        ensures answer { result.answer ≡ answer }
        ensures woken { result.woken ≡ Nobody }
    {
        Look {
            answer,
            woken: Woken::Nobody,
        }
    }
}

// The slot put back, and what the call does to the pool; padding is never changed.
pub fn put_shared(t: &mut ConnectionManager, i: usize, s: ConnectionStorage, share: Share)
    ensures { t.new ≡ put_shared t.old i s share }
{
    if i < 16 && i < t.count {
        t.connections[i] = s;
        t.pool = pool::shared(t.pool, i, share);
    }
}

// ---- new

fn fresh(slots: usize, default_att_mtu: u16, packets: u8) -> ConnectionManager
    ensures { result ≡ fresh_with slots default_att_mtu packets }
{
    let s = ConnectionStorage::new();
    let pool = Pool {
        packets,
        free: packets,
        waiting: 0,
        turn: 0,
    };
    ConnectionManager {
        connections: [s; 16],
        count: slots,
        default_link_credits: 0,
        default_att_mtu,
        pool,
    }
}

fn refused() -> Outcome<()>
    ensures { outcome_of no_value result ≡ new_refused }
{
    let table = fresh(0, 0, 0);
    Outcome {
        answer: Err(Refusal::Setup),
        woken: Woken::Nobody,
        table,
    }
}

// A fresh table of that many slots and packets in its pool; 8 where the arguments are out of bounds, and then a table without slots.
pub fn new(slots: u8, packet_mtu: u32, packets: u32) -> Outcome<()>
    ensures { outcome_of no_value result ≡ new_of slots packet_mtu packets }
{
    if slots < 1 {
        return refused();
    }
    if 16 < slots {
        return refused();
    }
    if packet_mtu < 4 {
        return refused();
    }
    if 65539 < packet_mtu {
        return refused();
    }
    if packets < 1 {
        return refused();
    }
    if 255 < packets {
        return refused();
    }
    let table = fresh(slots as usize, (packet_mtu - 4) as u16, packets as u8);
    Outcome {
        answer: Ok(()),
        woken: Woken::Nobody,
        table,
    }
}
