// A whole file, or standard input.
use crate::fault::{Fault, Reason};
use crate::system::System;
use std::alloc::Global;
use std::io::Read;
use std::rt::Files;

// The longest that is taken.
const MOST: usize = 1048576;

// What was read, and the name that it is told by.
#[derive(Drop)]
pub struct Input<'a> {
    pub name: &'a [u8],
    pub bytes: Vec<u8>,
}

// One byte more is read, by which a longer one is known.
fn read_all(alloc: Global, from: impl Read + Drop) -> Result<Vec<u8>, Reason> {
    let mut bytes = Vec::new(alloc);
    from.take(MOST as u64 + 1).read_to_end(&mut bytes)?;
    if MOST < bytes.len() {
        return Err(Reason::Long);
    }
    Ok(bytes)
}

fn named<'a>(name: &'a [u8], bytes: Result<Vec<u8>, Reason>) -> Result<Input<'a>, Fault<'a>> {
    match bytes {
        Ok(bytes) => Ok(Input { name, bytes }),
        Err(reason) => Err(Fault::new(name, reason)),
    }
}

pub fn standard_input<R>(system: &System<'_, R>) -> Result<Input<'static>, Fault<'static>> {
    let bytes = read_all(system.alloc, system.streams.input);
    named(b"standard input", bytes)
}

fn read_file<R: Files>(system: &System<'_, R>, name: &[u8]) -> Result<Vec<u8>, Reason> {
    read_all(system.alloc, program_io::open(system.files, name)?)
}

// A file by its name; `-` is standard input.
pub fn file<'a, R: Files>(system: &System<'_, R>, name: &'a [u8]) -> Result<Input<'a>, Fault<'a>> {
    if name == b"-".as_slice() {
        return standard_input(system);
    }
    named(name, read_file(system, name))
}
