// Bytes and what a writer made of a room, as text.
use crate::message::Message;
use refusal::Refusal;
use std::alloc::{AllocError, Global};
use std::fmt;
use std::fmt::{Display, Formatter};

// Two hexadecimal digits a byte, or `-` for none.
#[derive(Drop)]
pub struct Hex<'a>(pub &'a [u8]);

impl Display for Hex<'_> {
    fn fmt<W: fmt::Write>(&self, f: &mut Formatter<W>) -> fmt::Result {
        if self.0.is_empty() {
            return f.write_str("-");
        }
        for b in self.0 {
            write!(f, "{b:02X}")?;
        }
        Ok(())
    }
}

// What a room is filled with, so that a byte that is left as it was shows.
const FILL: u8 = 0xAA;

// What a writer answered, and the whole room that it had.
#[derive(Drop)]
pub struct Written {
    said: Result<usize, Refusal>,
    room: Vec<u8>,
}

impl Written {
    // Values that make no message are refused.
    pub fn of(
        alloc: Global,
        message: Option<&Message>,
        size: usize,
    ) -> Result<Written, AllocError> {
        let mut room = vec![in alloc; FILL; size]?;
        let said = match message {
            Some(message) => message.write(&mut room),
            None => Err(Refusal::Packet),
        };
        Ok(Written { said, room })
    }
}

impl Display for Written {
    fn fmt<W: fmt::Write>(&self, f: &mut Formatter<W>) -> fmt::Result {
        let room = Hex(&self.room);
        match self.said {
            Ok(n) => write!(f, "0 {n} | {room}"),
            Err(refusal) => write!(f, "{} | {room}", u8::from(refusal)),
        }
    }
}
