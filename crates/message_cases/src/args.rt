// The words of a line, as the values that they stand for.
use crate::message::Message;
use att_pdu::AttPdu;
use completed_packets::ConnHandleCompletedPackets;
use hci::{DisconnectionComplete, HciEvent, LeConnectionComplete, LeConnectionUpdateComplete};
use slot::BdAddr;
use std::alloc::{AllocError, Global};
use std::str::FromStr;
use thiserror::Error;

// The longest message, in bytes.
const BYTES: usize = 600;

// More pairs than a message can have.
const PAIRS: usize = 64;

// Why nothing came of a line.
#[derive(Debug, Drop, Error)]
pub enum Failure {
    #[error("?")]
    NoCase,
    #[error(transparent)]
    Memory(#[from(alloc)] AllocError),
}

// A number, of digits alone.
pub fn number<T: FromStr + Drop>(word: &str) -> Result<T, Failure>
where
    T::Err: Drop,
{
    if word.starts_with('+') {
        return Err(Failure::NoCase);
    }
    word.parse::<T>().ok().ok_or(Failure::NoCase)
}

// Numbers with commas between them, or `-` for none.
fn numbers(alloc: Global, word: &str) -> Result<Vec<u16>, Failure> {
    let mut numbers = Vec::new(alloc);
    if word == "-" {
        return Ok(numbers);
    }
    for one in word.split(',') {
        numbers.push(number::<u16>(one)?)?;
    }
    if numbers.len() > PAIRS {
        return Err(Failure::NoCase);
    }
    Ok(numbers)
}

// The pairs of the handles and the counts; none where there are not as many of the one as of the other.
fn pairs(
    alloc: Global,
    handles: &str,
    counts: &str,
) -> Result<Option<Vec<ConnHandleCompletedPackets>>, Failure> {
    let handles = numbers(alloc, handles)?;
    let counts = numbers(alloc, counts)?;
    if handles.len() != counts.len() {
        return Ok(None);
    }
    let pairs = handles.iter().zip(&counts).map(|(handle, count)| ConnHandleCompletedPackets {
        handle: *handle,
        num_completed_packets: *count,
    });
    Ok(Some(pairs.collect(alloc)?))
}

fn hex_digit(b: u8) -> Result<u8, Failure> {
    match (b as char).to_digit(16) {
        Some(digit) => Ok(digit as u8),
        None => Err(Failure::NoCase),
    }
}

fn byte(digits: [u8; 2]) -> Result<u8, Failure> {
    let [high, low] = digits;
    Ok((hex_digit(high)? << 4) | hex_digit(low)?)
}

// Bytes in hexadecimal, two digits each, or `-` for none.
pub fn bytes(alloc: Global, word: &str) -> Result<Vec<u8>, Failure> {
    let mut bytes = Vec::new(alloc);
    if word == "-" {
        return Ok(bytes);
    }
    if word.is_empty() || word.len() > 2 * BYTES {
        return Err(Failure::NoCase);
    }
    let (pairs, []) = word.as_bytes().as_chunks::<2>() else {
        return Err(Failure::NoCase);
    };
    for digits in pairs {
        bytes.push(byte(*digits)?)?;
    }
    Ok(bytes)
}

// An address, its bytes as on the wire.
fn addr(word: &str) -> Result<BdAddr, Failure> {
    let ([a, b, c, d, e, f], []) = word.as_bytes().as_chunks::<2>() else {
        return Err(Failure::NoCase);
    };
    Ok(BdAddr(
        byte(*a)?,
        byte(*b)?,
        byte(*c)?,
        byte(*d)?,
        byte(*e)?,
        byte(*f)?,
    ))
}

fn disconnection(words: &[&str]) -> Result<HciEvent, Failure> {
    let [status, handle, reason] = words else {
        return Err(Failure::NoCase);
    };
    Ok(HciEvent::DisconnectionComplete(DisconnectionComplete {
        status: number(status)?,
        handle: number(handle)?,
        reason: number(reason)?,
    }))
}

fn connection(words: &[&str]) -> Result<HciEvent, Failure> {
    let [
        status,
        handle,
        role,
        kind,
        peer,
        interval,
        latency,
        timeout,
        accuracy,
    ] = words
    else {
        return Err(Failure::NoCase);
    };
    Ok(HciEvent::LeConnectionComplete(LeConnectionComplete {
        status: number(status)?,
        handle: number(handle)?,
        role: number(role)?,
        peer_addr_kind: number(kind)?,
        peer_addr: addr(peer)?,
        conn_interval: number(interval)?,
        peripheral_latency: number(latency)?,
        supervision_timeout: number(timeout)?,
        central_clock_accuracy: number(accuracy)?,
    }))
}

fn update(words: &[&str]) -> Result<HciEvent, Failure> {
    let [status, handle, interval, latency, timeout] = words else {
        return Err(Failure::NoCase);
    };
    Ok(HciEvent::LeConnectionUpdateComplete(LeConnectionUpdateComplete {
        status: number(status)?,
        handle: number(handle)?,
        conn_interval: number(interval)?,
        peripheral_latency: number(latency)?,
        supervision_timeout: number(timeout)?,
    }))
}

// The message that a line has written; none where its values make none.
pub fn message(alloc: Global, kind: &str, values: &[&str]) -> Result<Option<Message>, Failure> {
    let message = match (kind, values) {
        ("write_disconnection", _) => Message::Event(disconnection(values)?),
        ("write_connection", _) => Message::Event(connection(values)?),
        ("write_update", _) => Message::Event(update(values)?),
        ("write_completed", [handles, counts]) => {
            return Ok(pairs(alloc, handles, counts)?.map(Message::CompletedPackets));
        }
        ("write_mtu_req", [mtu]) => Message::Pdu(AttPdu::ExchangeMtuReq(number(mtu)?)),
        ("write_mtu_rsp", [mtu]) => Message::Pdu(AttPdu::ExchangeMtuRsp(number(mtu)?)),
        ("write_cfm", []) => Message::Pdu(AttPdu::HandleValueCfm),
        ("write_ind", [handle, value]) => Message::Indication {
            handle: number(handle)?,
            value: bytes(alloc, value)?,
        },
        _ => return Err(Failure::NoCase),
    };
    Ok(Some(message))
}
