// A line of input, `DROPS TIMESTAMP BYTES`.
use crate::number;
use crate::number::NumberError;
use std::alloc::AllocError;
use thiserror::Error;

#[derive(Debug, Drop, Error)]
pub enum LineError {
    #[error("three words are due, a space between: DROPS TIMESTAMP BYTES")]
    Words,
    #[error("DROPS is {0}")]
    Drops(NumberError),
    #[error("TIMESTAMP is {0}")]
    Timestamp(NumberError),
    #[error("BYTES is not hexadecimal, two digits a byte")]
    NotHexadecimal,
    #[error("9: BYTES is no event that is read")]
    NoEvent,
    #[error("more than 16384 records")]
    Records,
    #[error(transparent)]
    Memory(#[from(alloc)] AllocError),
}

// BYTES as it stands.
#[derive(Clone, Copy)]
pub struct Line<'a> {
    pub drops: u32,
    pub timestamp: u64,
    pub bytes: &'a [u8],
}

fn drops(word: &[u8]) -> Result<u32, LineError> {
    let value = number::unsigned(word, 0xFFFF_FFFF).map_err(LineError::Drops)?;
    Ok(value as u32)
}

// None where it is empty or a comment.
pub fn parse(text: &[u8]) -> Result<Option<Line<'_>>, LineError> {
    if let [] | [b'#', ..] = text {
        return Ok(None);
    }
    let mut words = text.split(|b| *b == b' ');
    match (words.next(), words.next(), words.next(), words.next()) {
        (Some(first), Some(second), Some(bytes), None) => Ok(Some(Line {
            drops: drops(first)?,
            timestamp: number::signed(second).map_err(LineError::Timestamp)?,
            bytes,
        })),
        _ => Err(LineError::Words),
    }
}
