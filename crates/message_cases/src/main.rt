// Runs cases of the radio's messages, read from standard input, and writes each line with what came of it, or `?` where it is no case.
// tools/cases makes the input, and the output by a model of its own.
//
//   hci BYTES      the event read: 9, or 0 and its values; and these written again, into a room of one byte more
//   att BYTES      the same of ATT, with the value of an indication between the two
//   write_disconnection ROOM STATUS HANDLE REASON
//   write_connection ROOM STATUS HANDLE ROLE KIND ADDRESS INTERVAL LATENCY TIMEOUT ACCURACY
//   write_update ROOM STATUS HANDLE INTERVAL LATENCY TIMEOUT
//   write_completed ROOM HANDLES COUNTS
//   write_mtu_req ROOM MTU
//   write_mtu_rsp ROOM MTU
//   write_cfm ROOM
//   write_ind ROOM HANDLE BYTES
//
// Of what is written there stand the writer's answer (9, 10, or 0 and the number of bytes) and the whole room afterwards, which was
// filled with AA. ROOM is its size. BYTES and ADDRESS have two hexadecimal digits a byte, in the order of the wire; HANDLES and COUNTS
// are numbers with commas between them; `-` is none.
#![tactic(auto)]

mod args;
mod case;
mod message;
mod print;

use args::Failure;
use std::alloc::Global;
use std::io;
use std::io::{BufRead, BufReader};

// The longest line.
const LONGEST: usize = 1400;

// The line and what came of it, or `?` alone where it is too long. An empty one is passed over.
fn answer(to: &impl Print, alloc: Global, line: &[u8]) -> io::Result<()> {
    if line.is_empty() {
        return Ok(());
    }
    if line.len() > LONGEST {
        return println!(to; "?");
    }
    to.write_all(line)?;
    match case::run(alloc, line) {
        Ok(outcome) => println!(to; " | {outcome}"),
        Err(Failure::Memory(e)) => Err(io::Error::from(e)),
        Err(no_case) => println!(to; " | {no_case}"),
    }
}

fn main(rt: HostRuntime) -> io::Result<()> {
    let alloc = rt.alloc();
    let mut input = BufReader::new(alloc, rt.stdin())?;
    let mut line = Vec::new(alloc);
    // A proved loop has to end, and nothing says that the input does: the turns are more than any run uses up.
    for _ in 0..u64::MAX {
        line.clear();
        if input.read_until(b'\n', &mut line)? == 0 {
            return Ok(());
        }
        // The last line may lack its end.
        let text = line.as_slice();
        answer(
            &rt,
            alloc,
            text.strip_suffix(b"\n".as_slice()).unwrap_or(text),
        )?;
    }
    Ok(())
}
