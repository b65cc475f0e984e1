// What the programs share: the standard streams, the words of the command line, messages on standard error, the search for the end of a
// word or a line, and text for std and of std.
#![tactic(auto)]

ghost use Rattle.std.specs.Prelude.{◌≡◌, ◌≢◌, ℕ, ◌<◌, ◌≤◌, List, [], ◌∷◌, ◌++◌, length, slice_index, vec_len, All, IfOk, IfSome, OnErr, OnOk};
ghost use Rattle.std.specs.Io.KnownBytes.{Appends};
ghost use Rattle.std.specs.Str.{IsUtf8};
ghost use Rattle.text.specs.Text.{put_all, put_end};
ghost use lib.Chars.{codes};

use arrayvec::ArrayString;
use std::alloc::{AllocError, Global};
use std::env::FillError;
use std::error::Error;
use std::fmt::{Display, Write};
use std::fs::File;
use std::io::{ErrorKind, Stderr, Stdin, Stdout};
use std::rt::{Env, Files};
use std::{fmt, io};

#[derive(Clone, Copy)]
pub struct Streams {
    pub input: Stdin,
    pub output: Stdout,
    pub errors: Stderr,
}

// The longest word of the command line that is taken.
const LONGEST: usize = 4096;

// A word of the command line that is longer.
#[derive(Clone, Copy, Debug)]
pub struct TooLong;

impl Display for TooLong {
    fn fmt<W: fmt::Write>(&self, f: &mut fmt::Formatter<W>) -> fmt::Result {
        f.write_str("File name too long")
    }
}

impl Error for TooLong {}

// A word as it was given, which need not be text.
pub type Word = Result<Vec<u8>, TooLong>;

// The words behind the program's own name. It fails for want of memory alone; no clause can say which words the system gives.
pub fn words<R: Env>(rt: &R, alloc: Global) -> Result<Vec<Word>, AllocError>
    ensures { IfOk result (λ words. All (λ word. IfOk word (λ text. vec_len text ≤ 4096)) words.items) }
{
    let mut words = Vec::new(alloc);
    for i in 1..usize::MAX {
        // `arg` fills a lent slice.
        let mut word = [0u8; LONGEST];
        match rt.arg(i, &mut word) {
            Ok(n) => words.push(Ok(Vec::from_slice(alloc, &word[..n])?))?,
            Err(FillError::TooLong) => words.push(Err(TooLong))?,
            Err(FillError::NotPresent) => break,
        }
    }
    Ok(words)
}

// Writes `WHAT: REASON`, a line.
pub fn write_message<W: io::Write, D: Display + Drop>(
    out: &mut W,
    what: &[u8],
    reason: D,
) -> io::Result<()>
    ensures { OnOk result (IfSome (D.output reason) (λ text. Appends (W.contents out.old) (W.contents out.new) (what.now ++ (codes ": " ++ (text ++ (10 ∷ [])))))) }
{
    out.write_all(what)?;
    writeln!(out, ": {reason}")
}

// A trait, since no clause can say what standard error takes.
pub trait Tell {
    // The message on standard error. What that does not take is left out: there is no other place to tell it.
    fn tell(&self, what: &[u8], reason: impl Display + Drop);
}

impl Tell for Streams {
    fn tell(&self, what: &[u8], reason: impl Display + Drop) {
        let _ = write_message(&mut io::writer(&self.errors), what, reason);
    }
}

// Why a call failed, as the system says it.
#[derive(Clone, Copy)]
pub struct Failure<'a>(pub &'a io::Error);

impl Display for Failure<'_> {
    fn fmt<W: fmt::Write>(&self, f: &mut fmt::Formatter<W>) -> fmt::Result {
        let mut message = ArrayString::<256>::new();
        let _ = write!(message, "{}", self.0);
        f.write_str(without_number(message.as_str()))
    }
}

// The first position of a byte from `from` on, and the length where there is none.
pub fn find(s: &[u8], from: usize, b: u8) -> usize
    ensures within { result ≤ length s.now }
    ensures behind { from ≤ length s.now → from ≤ result }
    ensures beyond { length s.now < from → result ≡ length s.now }
    ensures before { (k : ℕ) → from ≤ k → k < result → slice_index s.now k ≢ b }
    ensures found { result < length s.now → slice_index s.now result ≡ b }
{
    match s.iter().skip(from).position(|x| *x == b) {
        Some(n) => from + n,
        None => s.len(),
    }
}

// The name of a file as std takes it, which opens a file by a name that is text alone. What the error says is told and no more.
pub fn path_of(name: &[u8]) -> io::Result<&str>
    ensures ok { IfOk result (λ path. path.now ≡ name.now) }
    ensures err { OnErr result (¬ (IsUtf8 name.now)) }
{
    match std::str::from_utf8(name) {
        Ok(path) => Ok(path),
        Err(_) => Err(io::Error::new(ErrorKind::InvalidInput, "the name is not UTF-8")),
    }
}

// The file of a name. That the system has one no clause can say.
pub fn open<R: Files>(rt: &R, name: &[u8]) -> io::Result<R::File>
    ensures { OnOk result (IsUtf8 name.now) }
{
    File::open(rt, path_of(name)?)
}

// The message of an error of the system's, without the number that std puts behind it.
fn without_number(message: &str) -> &str {
    match message.rsplit_once(" (os error ") {
        Some((reason, _)) => reason,
        None => message,
    }
}

// Puts why a call failed at a position, and answers the position behind. No clause can say what std or the system calls it.
pub fn put_reason(out: &mut [u8], at: usize, error: &io::Error) -> usize
    ensures { (reason : List ℕ) × (out.new ≡ put_all out.old at reason) × (result ≡ put_end out.old at reason) }
{
    let mut reason = ArrayString::<256>::new();
    let _ = write!(reason, "{}", Failure(error));
    text::put_all(out, at, reason.as_str().as_bytes())
}

#[cfg(test)]
mod tests;
