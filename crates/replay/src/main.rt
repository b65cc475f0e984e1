// Runs histories of calls and writes each call's answer, the waiters that it wakes and the whole table (docs/HISTORY.md).
#![tactic(auto)]

mod answer;
mod args;
mod command;
mod fault;
mod input;
mod line;
mod message;
mod page;
mod session;

use program_io::{Failure, Streams, Tell, Word};
use std::io;
use std::rt::Files;

fn usage(to: &impl Print) -> io::Result<()> {
    to.write_all(
        b"usage: replay [FILE..]

Runs histories of calls on a link table. A history has one call to a line. For
each call the line is written again, with its answer, the waiters that it wakes
and the whole table behind it; for a line that is no call, `? N | REASON`.

Each FILE is a history of its own. `-` is standard input, and so is no FILE at
all: lines that are typed are answered one by one, up to the end of the input
(Ctrl-D).

  -h, --help   writes this

docs/HISTORY.md has the calls, their arguments and the numbers of the answers.
A table of one link, and a link on it:

  new 1 251 10
  connect 64 1 112233445566 1 30000 0 2000000
",
    )
}

// Whether no word is an option. The first that is one is done.
fn are_files(streams: Streams, words: &[Word]) -> io::Result<bool> {
    for word in words {
        match word {
            Ok(text) => match text.as_slice() {
                b"-h" | b"--help" => {
                    usage(&streams.output)?;
                    return Ok(false);
                }
                [b'-', _, ..] => {
                    unknown_option(streams, text)?;
                    return Ok(false);
                }
                _ => {}
            },
            Err(_) => {}
        }
    }
    Ok(true)
}

fn unknown_option(streams: Streams, word: &[u8]) -> io::Result<()> {
    // Its bytes need not be text.
    let _ = streams.errors.write_all(b"unknown option: ");
    let _ = streams.errors.write_all(word);
    let _ = streams.errors.write_all(b"\n");
    usage(&streams.errors)
}

fn standard_input(streams: Streams) {
    input::history(streams.input, streams, b"standard input");
}

// A file that cannot be opened is named, with the reason, and passed over.
fn run_file(rt: &impl Files, streams: Streams, name: &[u8]) {
    if name == b"-".as_slice() {
        standard_input(streams);
        return;
    }
    match program_io::open(rt, name) {
        Ok(file) => input::history(file, streams, name),
        Err(e) => streams.tell(name, Failure(&e)),
    }
}

fn run_all(rt: &impl Files, streams: Streams, words: &[Word]) {
    for word in words {
        match word {
            Ok(name) => run_file(rt, streams, name),
            Err(too_long) => streams.tell(b"an argument", *too_long),
        }
    }
}

fn main(rt: HostRuntime) -> io::Result<()> {
    let streams = Streams {
        input: rt.stdin(),
        output: rt.stdout(),
        errors: rt.stderr(),
    };
    let words = program_io::words(&rt, rt.alloc())?;
    if words.is_empty() {
        standard_input(streams);
    } else if are_files(streams, &words)? {
        run_all(&rt, streams, &words);
    }
    Ok(())
}
