// Runs btsnoop recordings through a link table, makes recordings of events, and turns recordings into columns and back.
#![tactic(auto)]

ghost use Rattle.std.specs.Prelude.{◌≤◌, IfOk};

mod columns;
mod fault;
mod input;
mod line;
mod number;
mod page;
mod record;
mod run;
mod system;
mod table_display;
mod write;

use columns::Direction;
use fault::{Fault, Reason};
use program_io::{Streams, Tell, Word};
use slot::ConnectionManager;
use std::io;
use std::rt::Files;
use system::System;

fn usage(to: &impl Print) -> io::Result<()> {
    to.write_all(
        b"usage: btsnoop run SLOTS PACKET_MTU PACKETS FILE
       btsnoop write
       btsnoop columns FILE
       btsnoop records FILE

run: a new table (SLOTS 1 to 16, PACKET_MTU 4 to 65539, PACKETS 1 to 255), and
the recording FILE run through it. A line for each record, on standard output:

  NUMBER TIME WHAT IT IS | ANSWER | WAITERS

TIME is the number of microseconds as it is stored, with its sign. Numbers of an
event are those on the wire. ANSWER is that of `received` in docs/HISTORY.md,
or `passed over`; WAITERS are those that are woken. At the end stand the answer
of the whole with its counts, all waiters, the table, and whether
`replay_recording` over the whole FILE gives the same.

write: makes a recording of events (datalink 1001) on standard output, from
lines on standard input:

  DROPS TIMESTAMP BYTES

DROPS is 0 to 4294967295, TIMESTAMP -9223372036854775808 to
9223372036854775807, BYTES a whole event, two hexadecimal digits a byte. An
empty line and one that begins with `#` is passed over. Every bad line is told
on standard error with its number, and then no recording is written.

columns: the recording FILE by column, on standard output: its header, five
pairs of offset and length, then all lengths, flags, drops, timestamps (each as
the difference from the one before) and bytes.

records: the recording of which FILE is the columns, on standard output.

A FILE that is `-` is standard input. A FILE and an input have at most 1048576
bytes, a recording that `write` makes at most 16384 records. A refusal is told
on standard error, with its number.

  -h, --help   writes this

An example:

  echo 0 0 3E1301004000010066554433221118000000C80000 >lines
  btsnoop write <lines | btsnoop run 1 251 10 -
",
    )
}

// A command line that is none, and the usage.
fn misused(streams: Streams, what: &[u8], reason: &str) -> io::Result<()> {
    streams.tell(what, reason);
    usage(&streams.errors)
}

// A word that is too long is no command and no number.
fn text_of(word: &Word) -> &[u8] {
    match word {
        Ok(text) => text.as_slice(),
        Err(_) => b"",
    }
}

fn number_in(name: &'static [u8], word: &Word, most: u64) -> Result<u64, Fault<'static>>
    ensures { IfOk result (λ value. value ≤ most) }
{
    match number::unsigned(text_of(word), most) {
        Ok(value) => Ok(value),
        Err(e) => Err(Fault::new(name, e)),
    }
}

// The name of a file.
fn name_in(word: &Word) -> Result<&[u8], Fault<'static>> {
    match word {
        Ok(name) => Ok(name.as_slice()),
        Err(e) => Err(Fault::new(b"FILE", *e)),
    }
}

// What a table is made of.
#[derive(Clone, Copy)]
struct Sizes {
    slots: u8,
    packet_mtu: u32,
    packets: u32,
}

fn sizes_in(slots: &Word, packet_mtu: &Word, packets: &Word) -> Result<Sizes, Fault<'static>> {
    Ok(Sizes {
        slots: number_in(b"SLOTS", slots, 0xFF)? as u8,
        packet_mtu: number_in(b"PACKET_MTU", packet_mtu, 0xFFFF_FFFF)? as u32,
        packets: number_in(b"PACKETS", packets, 0xFFFF_FFFF)? as u32,
    })
}

impl Sizes {
    fn table(self) -> Result<ConnectionManager, Fault<'static>> {
        let made = table::new(self.slots, self.packet_mtu, self.packets);
        match made.answer {
            Ok(()) => Ok(made.table),
            Err(_) => Err(Fault::new(b"8", Reason::Table)),
        }
    }
}

// The table is made before the file is looked at.
fn run_file<'a, R: Files>(
    system: &System<'_, R>,
    sizes: Sizes,
    file: &'a Word,
) -> Result<(), Fault<'a>> {
    let name = name_in(file)?;
    let table = sizes.table()?;
    run::run(system, table, input::file(system, name)?)
}

fn turn_file<'a, R: Files>(
    system: &System<'_, R>,
    to: Direction,
    file: &'a Word,
) -> Result<(), Fault<'a>> {
    let name = name_in(file)?;
    columns::turn(system, to, input::file(system, name)?)
}

fn run_command<R: Files>(system: &System<'_, R>, words: &[Word]) -> io::Result<()> {
    let streams = system.streams;
    let [command, arguments @ ..] = words else {
        return usage(&streams.output);
    };
    let command = text_of(command);
    let done = match (command, arguments) {
        (b"-h" | b"--help", _) => return usage(&streams.output),
        (b"run", [slots, packet_mtu, packets, file]) => sizes_in(
            slots, packet_mtu, packets,
        ).and_then(|sizes| run_file(system, sizes, file)),
        (b"run", _) => {
            let due = "four words are due: SLOTS PACKET_MTU PACKETS FILE";
            return misused(streams, command, due);
        }
        (b"write", []) => write::write(system),
        (b"write", _) => {
            let due = "no word is due: the lines are read from standard input";
            return misused(streams, command, due);
        }
        (b"columns", [file]) => turn_file(system, Direction::ToColumns, file),
        (b"records", [file]) => turn_file(system, Direction::ToRecords, file),
        (b"columns" | b"records", _) => return misused(streams, command, "one word is due: FILE"),
        _ => return misused(streams, command, "no such command"),
    };
    if let Err(fault) = done {
        streams.tell(fault.what, fault.reason);
    }
    Ok(())
}

fn main(rt: HostRuntime) -> io::Result<()> {
    let streams = Streams {
        input: rt.stdin(),
        output: rt.stdout(),
        errors: rt.stderr(),
    };
    let alloc = rt.alloc();
    let words = program_io::words(&rt, alloc)?;
    let system = System {
        files: &rt,
        alloc,
        streams,
    };
    run_command(&system, &words)
}
