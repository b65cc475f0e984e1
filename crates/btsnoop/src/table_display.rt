// Waiters and a table, as the libraries put them into text.
ghost use Rattle.std.specs.Prelude.{◌<◌, ◌^◌};

use slot::ConnectionManager;
use std::fmt;
use std::fmt::{Display, Formatter};
use woken_set::WokenSet;

// What a library puts into a lent slice as text, which is ASCII.
pub trait PutText: Copy {
    // Answers the position behind.
    fn put(self, out: &mut [u8]) -> usize;
}

impl PutText for WokenSet {
    fn put(self, out: &mut [u8]) -> usize {
        woken_text::put_woken(out, 0, self)
    }
}

impl PutText for ConnectionManager {
    fn put(self, out: &mut [u8]) -> usize {
        table_text::put_table(out, 0, self)
    }
}

// Its text, which is shorter than ROOM.
#[derive(Drop)]
pub struct Text<T: PutText, const ROOM: usize> {
    of: T,
    // No array is larger.
    ghost fits: { ROOM < 2 ^ 63 },
}

impl<T: PutText, const ROOM: usize> Display for Text<T, ROOM> {
    fn fmt<W: fmt::Write>(&self, f: &mut Formatter<W>) -> fmt::Result {
        // What writes the text takes a lent slice.
        let mut room = [0u8; ROOM];
        let n = self.of.put(&mut room);
        let text = room.get(..n).unwrap_or(&room);
        f.write_str(std::str::from_utf8(text).map_err(|_| fmt::Error)?)
    }
}

// Waiters: at most three of the table, and four of each of sixteen links.
pub fn woken(of: WokenSet) -> Text<WokenSet, 2048> {
    Text { of }
}

// A table: at most sixteen slots, each with four events.
pub fn table(of: ConnectionManager) -> Text<ConnectionManager, 65536> {
    Text { of }
}
