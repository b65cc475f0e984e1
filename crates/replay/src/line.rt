// A line, read word by word. The first word that is not of its form is the line's fault.
ghost use Rattle.std.specs.Prelude.{◌≤◌, IfOk};

use crate::fault::{Argument, Fault};
use arrayvec::ArrayVec;
use text_read::NumberError;

// A line has at most 1,200 bytes, so a message at most 600.
pub type Bytes = ArrayVec<u8, 600>;

#[derive(Clone, Copy)]
pub struct Line<'a> {
    pub text: &'a [u8],
    // Its first word, which says what is asked for.
    pub name: &'a [u8],
    // The words that are not read yet: none, or those behind a space, one space between them.
    rest: Option<&'a [u8]>,
}

// The first word, and what is behind a space.
fn split(text: &[u8]) -> (&[u8], Option<&[u8]>) {
    let end = program_io::find(text, 0, b' ');
    (&text[..end], text.get(end + 1..))
}

// A word that is bytes in hexadecimal, two digits each, and nothing else.
fn bytes_in<const N: usize>(word: &[u8]) -> Option<ArrayVec<u8, N>> {
    let mut bytes = ArrayVec::from([0u8; N]);
    let read = text_read::bytes_at(word, 0, bytes.as_mut_slice());
    if read.next != word.len() {
        return None;
    }
    bytes.truncate(read.n);
    Some(bytes)
}

impl<'a> Line<'a> {
    pub fn of(text: &'a [u8]) -> Result<Self, Fault> {
        match split(text) {
            ([], _) => Err(Fault::EmptyWord),
            (name, rest) => Ok(Line { text, name, rest }),
        }
    }

    // Whether all of its words are read.
    pub fn is_read(&self) -> bool {
        self.rest.is_none()
    }

    fn take(&mut self) -> Option<&'a [u8]> {
        let (word, rest) = split(self.rest?);
        self.rest = rest;
        Some(word)
    }

    fn next_word(&mut self, name: Argument) -> Result<&'a [u8], Fault> {
        match self.take() {
            None => Err(Fault::Missing(name)),
            Some([]) => Err(Fault::EmptyWord),
            Some(word) => Ok(word),
        }
    }

    // Nothing stands behind the last argument.
    pub fn end(mut self) -> Result<(), Fault> {
        match self.take() {
            None => Ok(()),
            Some([]) => Err(Fault::EmptyWord),
            Some(_) => Err(Fault::TooManyWords),
        }
    }

    // A number that is too large is told before what stands behind its digits.
    fn number(&mut self, name: Argument, most: u64) -> Result<u64, Fault>
        ensures { IfOk result (λ value. value ≤ most) }
    {
        let word = self.next_word(name)?;
        match text_read::number_at(word, 0) {
            Err(NumberError::NoDigit) => Err(Fault::NotDigits(name)),
            Err(NumberError::TooLarge) => Err(Fault::TooLarge(name)),
            Ok(number) => {
                if most < number.value {
                    return Err(Fault::TooLarge(name));
                }
                if number.next != word.len() {
                    return Err(Fault::NotDigits(name));
                }
                Ok(number.value)
            }
        }
    }

    pub fn long(&mut self, name: Argument) -> Result<u64, Fault> {
        self.number(name, 0xFFFF_FFFF_FFFF_FFFF)
    }

    pub fn word(&mut self, name: Argument) -> Result<u32, Fault> {
        Ok(self.number(name, 0xFFFF_FFFF)? as u32)
    }

    pub fn short(&mut self, name: Argument) -> Result<u16, Fault> {
        Ok(self.number(name, 0xFFFF)? as u16)
    }

    pub fn byte(&mut self, name: Argument) -> Result<u8, Fault> {
        Ok(self.number(name, 0xFF)? as u8)
    }

    // The value whose number is the next word.
    pub fn of_number<T: Copy>(&mut self, name: Argument, values: &[T]) -> Result<T, Fault>
    where
        u8: From<T>,
    {
        let number = self.long(name)?;
        values
            .iter()
            .copied()
            .find(|value| u8::from(*value) as u64 == number)
            .ok_or(Fault::NoSuchValue(name))
    }

    // Bytes in hexadecimal, the last argument of a line.
    pub fn last_bytes(mut self) -> Result<Bytes, Fault> {
        let word = self.next_word(Argument::Bytes)?;
        let bytes = bytes_in(word).ok_or(Fault::NotHexadecimal)?;
        self.end()?;
        Ok(bytes)
    }

    // The six bytes of an address, the last on the wire first.
    pub fn address(&mut self) -> Result<[u8; 6], Fault> {
        let word = self.next_word(Argument::Address)?;
        let bytes = bytes_in::<6>(word).ok_or(Fault::NotAddress)?;
        let [f, e, d, c, b, a] = bytes.as_slice() else {
            return Err(Fault::NotAddress);
        };
        Ok([*f, *e, *d, *c, *b, *a])
    }
}
