// `btsnoop columns` and `btsnoop records`: a recording by column, and back.
use crate::fault::{Fault, Reason};
use crate::input::Input;
use crate::page;
use crate::system::System;
use refusal::Refusal;
use std::alloc::Global;

// Of the longest file that is taken the columns have 40 bytes more: 10 is not met.
const ROOM: usize = 1048616;

// The record that is not whole: behind those that are, each with a head of 24 bytes.
fn cut(s: &[u8]) -> Reason {
    let (Ok(whole) | Err(whole)) = btsnoop_measure::measure_all(s);
    let records = whole.records as u64;
    Reason::Record {
        number: records.wrapping_add(1),
        at: records
            .wrapping_mul(24)
            .wrapping_add(whole.bytes as u64)
            .wrapping_add(16),
    }
}

// The command's word, matched once.
#[derive(Clone, Copy)]
pub enum Direction {
    ToColumns,
    ToRecords,
}

impl Direction {
    // Answers how many bytes of the room are used.
    fn turn_into(self, room: &mut [u8], bytes: &[u8]) -> Result<usize, Reason> {
        match self {
            Direction::ToColumns => to_columns::to_columns(bytes, room).map_err(|e| match e {
                Refusal::Record => cut(bytes),
                _ => Reason::from(e),
            }),
            Direction::ToRecords => Ok(from_columns::from_columns(bytes, room)?),
        }
    }

    fn turned(self, alloc: Global, bytes: &[u8]) -> Result<Vec<u8>, Reason> {
        let mut out = vec![in alloc; 0u8; ROOM]?;
        let n = self.turn_into(&mut out, bytes)?;
        out.truncate(n);
        Ok(out)
    }
}

pub fn turn<'a, R>(
    system: &System<'_, R>,
    to: Direction,
    input: Input<'a>,
) -> Result<(), Fault<'a>> {
    match to.turned(system.alloc, &input.bytes) {
        Ok(out) => page::write(system.streams, &out),
        Err(reason) => Err(Fault::new(input.name, reason)),
    }
}
