// Some of the kinds by the calls' own functions.
use crate::kinds;
use crate::kinds::Link;
use slot::ConnectionManager;

#[derive(Clone, Copy)]
pub enum DirectKind {
    SendLock,
    References,
    Event,
}

// So many pairs of calls to one link. A loop each, in a function of its own: one loop that takes the calls as a closure copies the
// table once more a call, and three loops in one function half a time more (tools/copies).
#[derive(Clone, Copy)]
pub struct Pairs {
    pub count: u64,
    pub link: Link,
}

impl Pairs {
    fn send_lock(self, table: ConnectionManager) -> ConnectionManager {
        let mut t = table;
        for _ in 0..self.count {
            let handle = self.link.handle();
            let locked = poll_acquire_acl_send_lock::poll_acquire_acl_send_lock(t, handle);
            t = unlock_acl_send::unlock_acl_send(locked.table, self.link.lock()).table;
        }
        t
    }

    fn references(self, table: ConnectionManager) -> ConnectionManager {
        let mut t = table;
        for _ in 0..self.count {
            let held = inc_ref::inc_ref(t, self.link.index);
            t = dec_ref::dec_ref(held.table, self.link.index).table;
        }
        t
    }

    fn event(self, table: ConnectionManager) -> ConnectionManager {
        let mut t = table;
        for _ in 0..self.count {
            let handle = self.link.handle();
            let posted = post_handle_event::post_handle_event(t, handle, kinds::updated());
            t = next::next(posted.table, self.link.index).table;
        }
        t
    }

    // The table once they were made.
    pub fn made(self, table: ConnectionManager, kind: DirectKind) -> ConnectionManager {
        match kind {
            DirectKind::SendLock => self.send_lock(table),
            DirectKind::References => self.references(table),
            DirectKind::Event => self.event(table),
        }
    }
}
