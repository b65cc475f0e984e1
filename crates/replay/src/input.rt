// A history read from a file or standard input, line by line.
use crate::fault::Fault;
use crate::page::Page;
use crate::session::Session;
use arrayvec::ArrayVec;
use program_io::{Failure, Streams, Tell};
use std::fmt::Write;
use std::io;
use std::io::Read;

// The longest text of a line.
const LINE: usize = 1200;

// Its bytes, and three more: enough to see ` | ` behind it.
const KEPT: usize = 1203;

#[derive(Drop)]
struct Lines<'a, F> {
    file: F,
    // What the file is called where it cannot be read.
    name: &'a [u8],
    streams: Streams,
    session: Session,
    // How many lines were read.
    number: u64,
    // What is kept of the one that is being read.
    line: ArrayVec<u8, KEPT>,
}

// The text that counts: what stands before the word `|`, if that is there.
fn counted(line: &[u8]) -> &[u8] {
    let mut at: usize = 0;
    for word in line.split(|b| *b == b' ') {
        if word == b"|".as_slice() {
            // Without the space in front of it.
            return line.get(..at.saturating_sub(1)).unwrap_or(line);
        }
        at = at.wrapping_add(word.len()).wrapping_add(1);
    }
    line
}

fn run(session: &mut Session, line: &[u8]) -> Result<(), Fault> {
    match counted(line) {
        [] | [b'#', ..] => Ok(()),
        text if LINE < text.len() => Err(Fault::TooLong),
        text => session.run(text),
    }
}

impl<'a, F: Read> Lines<'a, F> {
    fn new(file: F, streams: Streams, name: &'a [u8]) -> Self {
        Lines {
            file,
            name,
            streams,
            session: Session::new(Page::new(streams.output)),
            number: 0,
            line: ArrayVec::new(),
        }
    }

    // More of a line. What there is no room for is left out.
    fn keep(&mut self, text: &[u8]) {
        let _ = io::Write::write(&mut self.line, text);
    }

    // The end of a line; `? N | REASON` for one that is no call.
    fn end_line(&mut self) {
        self.number = self.number.wrapping_add(1);
        if let Err(fault) = run(&mut self.session, self.line.as_slice()) {
            let _ = writeln!(self.session.page, "? {} | {fault}", self.number);
        }
        self.line.clear();
    }

    // The lines of a chunk, and what they gave; the last may go on in the next chunk.
    fn take(&mut self, chunk: &[u8]) -> io::Result<()> {
        for part in chunk.split_inclusive(|b| *b == b'\n') {
            if let [text @ .., b'\n'] = part {
                self.keep(text);
                self.end_line();
                self.session.page.flush_full()?;
            } else {
                self.keep(part);
            }
        }
        self.session.page.flush()
    }

    // Reads once: whether there may be more. What cannot be read is at its end, which is said with its name.
    fn read(&mut self) -> io::Result<bool> {
        // What one read fills.
        let mut chunk = [0u8; 65536];
        match self.file.read(&mut chunk) {
            Ok(0) => Ok(false),
            Ok(n) => {
                self.take(&chunk[..n])?;
                Ok(true)
            }
            Err(e) => {
                self.streams.tell(self.name, Failure(&e));
                Ok(false)
            }
        }
    }

    fn read_all(&mut self) -> io::Result<()> {
        // A proved loop has to end, and nothing says that the input does: the turns are more than any run uses up.
        for _ in 0..u64::MAX {
            if !self.read()? {
                break;
            }
        }
        // The last line may lack its end.
        self.end_line();
        self.session.page.flush()
    }
}

// A whole history. Where standard output does not take what is written, that is said, and the rest is left out.
pub fn history<F: Read + Drop>(file: F, streams: Streams, name: &[u8]) {
    let mut history = Lines::new(file, streams, name);
    if let Err(e) = history.read_all() {
        streams.tell(b"standard output", Failure(&e));
    }
}
