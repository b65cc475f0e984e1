// Text on its way to standard output.
use event_queue::ConnectionEvent;
use slot::ConnectionManager;
use std::io::Stdout;
use std::{fmt, io};
use woken_set::WokenSet;

const ROOM: usize = 65536;

// From here on it is written before the next line: the longest line of output is shorter than what is left of the room.
const FULL: usize = 49152;

#[derive(Drop)]
pub struct Page {
    output: Stdout,
    // An array, since the libraries' writers fill a lent slice and answer a position, and `Vec` and `BufWriter` lend none of their room.
    room: [u8; ROOM],
    // Bytes not written yet.
    at: usize,
}

impl Page {
    pub fn new(output: Stdout) -> Self {
        Page {
            output,
            room: [0u8; ROOM],
            at: 0,
        }
    }

    pub fn put(&mut self, text: &[u8]) {
        self.at = text::put_all(&mut self.room, self.at, text);
    }

    pub fn put_number(&mut self, n: u64) {
        self.at = number_text::put_number(&mut self.room, self.at, n);
    }

    // Each behind a space.
    pub fn put_numbers(&mut self, ns: &[u64]) {
        self.at = number_text::put_numbers(&mut self.room, self.at, b' ', ns);
    }

    // Behind a space.
    pub fn put_hex(&mut self, bytes: &[u8]) {
        self.put(b" ");
        self.at = text::put_hex(&mut self.room, self.at, bytes);
    }

    // Its numbers, each behind a space.
    pub fn put_event(&mut self, event: ConnectionEvent) {
        self.put(b" ");
        self.at = event_text::put_event(&mut self.room, self.at, b' ', event);
    }

    pub fn put_woken(&mut self, woken: WokenSet) {
        self.at = woken_text::put_woken(&mut self.room, self.at, woken);
    }

    pub fn put_table(&mut self, t: ConnectionManager) {
        self.at = table_text::put_table(&mut self.room, self.at, t);
    }

    // Writes what there is.
    pub fn flush(&mut self) -> io::Result<()> {
        if let Some(text) = self.room.get(..self.at) {
            self.output.write_all(text)?;
        }
        self.at = 0;
        Ok(())
    }

    // The same where there is much.
    pub fn flush_full(&mut self) -> io::Result<()> {
        if FULL <= self.at {
            self.flush()?;
        }
        Ok(())
    }
}

impl fmt::Write for Page {
    fn write_str(&mut self, s: &str) -> fmt::Result {
        self.put(s.as_bytes());
        Ok(())
    }
}
