// `btsnoop write`: a recording of the events that lines of input hold.
use crate::fault::{Fault, Reason};
use crate::line::LineError;
use crate::system::System;
use crate::{input, line, page};
use btsnoop_write::EventHead;
use refusal::Refusal;
use std::alloc::Global;

// The most records. Two digits a byte, an input holds at most 524,288 bytes of events, and so the recording at most 917,520.
const RECORDS: usize = 16384;

const RECORDING: usize = 917520;

// The events one behind the other, and a head for each.
#[derive(Drop)]
struct Events {
    heads: Vec<EventHead>,
    bytes: Vec<u8>,
}

// All of the word is BYTES.
fn bytes_of(alloc: Global, word: &[u8]) -> Result<Vec<u8>, LineError> {
    let mut bytes = vec![in alloc; 0u8; word.len() / 2]?;
    let read = text_read::bytes_at(word, 0, &mut bytes);
    if read.next != word.len() {
        return Err(LineError::NotHexadecimal);
    }
    bytes.truncate(read.n);
    Ok(bytes)
}

impl Events {
    fn new(alloc: Global) -> Self {
        Events {
            heads: Vec::new(alloc),
            bytes: Vec::new(alloc),
        }
    }

    // The event of a line, behind those before it.
    fn take(&mut self, alloc: Global, text: &[u8]) -> Result<(), LineError> {
        let Some(line) = line::parse(text)? else {
            return Ok(());
        };
        if RECORDS <= self.heads.len() {
            return Err(LineError::Records);
        }
        let event = bytes_of(alloc, line.bytes)?;
        if !btsnoop_write::is_read(&event) {
            return Err(LineError::NoEvent);
        }
        // An event that is read has at most 257 bytes.
        let length = u16::try_from(event.len()).map_err(|_| LineError::NoEvent)?;
        self.bytes.extend_from_slice(&event)?;
        self.heads.push(EventHead {
            length,
            drops: line.drops,
            timestamp: line.timestamp,
        })?;
        Ok(())
    }
}

// The events of all lines; none where a line is bad. Each bad line is told, and too many records once.
fn events_of<R>(system: &System<'_, R>, text: &[u8]) -> Option<Events> {
    let mut events = Events::new(system.alloc);
    let mut is_good = true;
    let mut is_overfull = false;
    for (i, line) in text.split(|b| *b == b'\n').enumerate() {
        let Err(e) = events.take(system.alloc, line) else {
            continue;
        };
        let is_over = matches!(e, LineError::Records);
        if !(is_over && is_overfull) {
            let number = i.wrapping_add(1);
            let _ = println!(system.streams.errors; "line {number}: {e}");
        }
        is_overfull |= is_over;
        is_good = false;
    }
    if is_good { Some(events) } else { None }
}

// The recording. What the lines gave is of the form and has room: 9 and 10 are not met.
fn recording(alloc: Global, events: &Events) -> Result<Vec<u8>, Fault<'static>> {
    let mut out = vec![in alloc; 0u8; RECORDING].map_err(|e| Fault::new(b"write", e))?;
    match btsnoop_write::write(&events.bytes, &events.heads, &mut out) {
        Ok(n) => {
            out.truncate(n);
            Ok(out)
        }
        Err(Refusal::Packet) => Err(Fault::new(b"9", Reason::Event)),
        Err(_) => Err(Fault::new(b"10", Reason::Recording)),
    }
}

pub fn write<R>(system: &System<'_, R>) -> Result<(), Fault<'static>> {
    let input = input::standard_input(system)?;
    let Some(events) = events_of(system, &input.bytes) else {
        return Err(Fault::new(b"standard output", Reason::Lines));
    };
    page::write(system.streams, &recording(system.alloc, &events)?)
}
