// The packet pool that links share, without the links: what is free, who waits, and whose turn it is.
#![tactic(auto)]

ghost use Rattle.std.specs.Prelude.{◌≡◌, ◌&&◌, ltb};
ghost use Rattle.pool.specs.Pool.{joined, may_draw};
ghost use Rattle.pool.specs.Code.{shared_in, fits_slots};

// `packets` is fixed when the table is made. Bit i of `waiting` is set where slot i waits. `turn` is one after the slot last
// granted, and 0 before any grant: the search for the next waiting slot begins there.
#[derive(Clone, Copy)]
pub struct Pool {
    pub packets: u8,
    pub free: u8,
    pub waiting: u16,
    pub turn: u8,
}

// What a call on a slot does to the pool: nothing; the slot waits; it is granted packets, and waits no longer; it gives
// packets back; or its link closes, which held packets, and it waits no longer.
#[derive(Clone, Copy)]
pub enum Share {
    Untouched,
    Waits,
    Draws(u8),
    GivesBack(u8),
    Closes(u8),
}

// Whether an ask of a slot is granted, which waits with it: it is the next waiting one, and the packets are free.
pub fn may_draw(pool: Pool, slot: usize, packets: u8) -> bool
    ensures { result ≡ (ltb slot 16 && may_draw 16 slot packets (joined slot pool)) }
{
    if slot >= 16 {
        return false;
    }
    let waiting = turn::with_wait(pool.waiting, slot);
    let next = turn::next_waiting(waiting, pool.turn);
    if next != slot as u32 {
        return false;
    }
    packets <= pool.free
}

// The pool afterwards. A slot past the sixteen, more packets drawn than are free or more back than a byte holds change nothing.
pub fn shared(pool: Pool, slot: usize, share: Share) -> Pool
    ensures { result ≡ shared_in slot share pool }
{
    if slot >= 16 {
        return pool;
    }
    match share {
        Share::Untouched => pool,
        Share::Waits => Pool {
            waiting: turn::with_wait(pool.waiting, slot),
            ..pool
        },
        Share::Draws(n) => {
            if n > pool.free {
                return pool;
            }
            let waiting = turn::with_wait(pool.waiting, slot);
            Pool {
                free: pool.free - n,
                waiting: turn::without_wait(waiting, slot),
                turn: slot as u8 + 1,
                ..pool
            }
        }
        Share::GivesBack(n) => {
            if n > 255 - pool.free {
                return pool;
            }
            Pool {
                free: pool.free + n,
                ..pool
            }
        }
        Share::Closes(n) => {
            if n > 255 - pool.free {
                return pool;
            }
            Pool {
                free: pool.free + n,
                waiting: turn::without_wait(pool.waiting, slot),
                ..pool
            }
        }
    }
}

// Whether the pool fits a table of `count` slots, but for what these hold.
pub fn fits_slots(pool: Pool, count: usize) -> bool
    ensures { result ≡ fits_slots count pool }
{
    if pool.packets < 1 {
        return false;
    }
    if pool.free > pool.packets {
        return false;
    }
    let turn = pool.turn as usize;
    if turn > count {
        return false;
    }
    if count >= 16 {
        return true;
    }
    pool.waiting < 1 << count
}
