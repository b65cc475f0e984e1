// What a line asks for: bytes read as a message, or values written as one.
use crate::args;
use crate::args::Failure;
use crate::message::Message;
use crate::print::{Hex, Written};
use std::alloc::Global;

// The largest room for a writer: one byte more than the longest message, so that a message is seen to end.
const ROOM: u16 = 601;

fn hci(alloc: Global, bytes: &[u8]) -> Result<String, Failure> {
    let Some(message) = Message::hci(alloc, bytes)? else {
        return Ok(String::from_str(alloc, "9")?);
    };
    let written = Written::of(alloc, Some(&message), bytes.len() + 1)?;
    Ok(format!(in alloc; "{message} | {written}")?)
}

fn att(alloc: Global, bytes: &[u8]) -> Result<String, Failure> {
    // Other bytes than an indication's have no value.
    let value = Hex(att_pdu::indication_value(bytes));
    let Some(message) = Message::att(alloc, bytes)? else {
        return Ok(format!(in alloc; "9 | {value}")?);
    };
    let written = Written::of(alloc, Some(&message), bytes.len() + 1)?;
    Ok(format!(in alloc; "{message} | {value} | {written}")?)
}

fn write(alloc: Global, kind: &str, room: &str, values: &[&str]) -> Result<String, Failure> {
    let size = args::number::<u16>(room)?;
    if size > ROOM {
        return Err(Failure::NoCase);
    }
    let message = args::message(alloc, kind, values)?;
    let written = Written::of(alloc, message.as_ref(), size as usize)?;
    Ok(format!(in alloc; "{written}")?)
}

// What comes of a whole line.
pub fn run(alloc: Global, line: &[u8]) -> Result<String, Failure> {
    let Ok(text) = std::str::from_utf8(line) else {
        return Err(Failure::NoCase);
    };
    let words: Vec<&str> = text.split(' ').collect(alloc)?;
    match words.as_slice() {
        ["hci", bytes] => hci(alloc, &args::bytes(alloc, bytes)?),
        ["att", bytes] => att(alloc, &args::bytes(alloc, bytes)?),
        [kind, room, values @ ..] => write(alloc, kind, room, values),
        _ => Err(Failure::NoCase),
    }
}
