// Text on its way to standard output.
use crate::fault::Fault;
use program_io::{Failure, Streams, Tell};
use std::alloc::{AllocError, Global};
use std::fmt::{Display, Write};
use std::io::Stdout;

// From here on it is written before the next line.
const FULL: usize = 32768;

const NAME: &[u8] = b"standard output";

// All of it.
pub fn write(streams: Streams, bytes: &[u8]) -> Result<(), Fault<'static>> {
    streams
        .output
        .write_all(bytes)
        .map_err(|e| Fault::new(NAME, e))
}

#[derive(Drop)]
pub struct Page {
    streams: Streams,
    // Standard output, as long as it takes what is written.
    output: Option<Stdout>,
    // What is not written yet.
    text: String,
}

impl Page {
    pub fn new(alloc: Global, streams: Streams) -> Self {
        Page {
            streams,
            output: Some(streams.output),
            text: String::new(alloc),
        }
    }

    pub fn put(&mut self, text: impl Display + Drop) -> Result<(), AllocError> {
        write!(self.text, "{text}")
    }

    // Writes what there is. Where it is not taken, that is told, and what follows is left out.
    pub fn flush(&mut self) {
        if let Some(output) = self.output
            && let Err(e) = output.write_all(self.text.as_bytes())
        {
            self.streams.tell(NAME, Failure(&e));
            self.output = None;
        }
        self.text.clear();
    }

    // The same where there is much.
    pub fn flush_full(&mut self) {
        if FULL <= self.text.len() {
            self.flush();
        }
    }

    // Whether standard output took all that was written.
    pub fn is_writable(&self) -> bool {
        self.output.is_some()
    }
}
