// What no clause says: that calls succeed, and what they give where the system gives it.
use super::*;
use std::io;

// A command line whose words are these, the program's own name in front of them.
#[derive(Drop)]
struct Given<'a>(&'a [&'a [u8]]);

impl Env for Given<'_> {
    fn arg(&self, i: usize, buf: &mut [u8]) -> Result<usize, FillError> {
        let word = *self.0.get(i).ok_or(FillError::NotPresent)?;
        match buf.get_mut(..word.len()) {
            Some(front) => {
                front.copy_from_slice(word);
                Ok(word.len())
            }
            None => Err(FillError::TooLong),
        }
    }

    fn var(&self, _name: &str, _buf: &mut [u8]) -> Result<usize, FillError> {
        Err(FillError::NotPresent)
    }

    fn var_at(&self, _i: usize, _buf: &mut [u8]) -> Result<usize, FillError> {
        Err(FillError::NotPresent)
    }
}

#[test]
fn words_are_those_behind_the_name(rt: HostRuntime) -> io::Result<()> {
    let longest = [b'x'; 4096];
    let longer = [b'x'; 4097];
    let given = Given(&[b"replay", b"-", b"\xff", &longest, &longer, b""]);
    let words = words(&given, rt.alloc())?;
    let texts = [
        Some(b"-".as_slice()),
        Some(b"\xff"),
        Some(&longest),
        None,
        Some(b""),
    ];
    assert_eq!(rt; words.len(), texts.len());
    for (word, text) in words.iter().zip(texts.iter()) {
        match word {
            Ok(word) => assert!(rt; *text == Some(word.as_slice())),
            Err(TooLong) => assert!(rt; text.is_none()),
        }
    }
    Ok(())
}

#[test]
fn a_message_is_a_line(rt: HostRuntime) -> io::Result<()> {
    let mut out = Vec::new(rt.alloc());
    write_message(&mut out, b"\xff", TooLong)?;
    assert_eq!(rt; out.as_slice(), b"\xff: File name too long\n".as_slice());
    Ok(())
}

#[test]
fn a_failure_is_told_without_its_number(rt: HostRuntime) -> io::Result<()> {
    let missing = io::Error::from_raw_os_error(2);
    let mut out = Vec::new(rt.alloc());
    write_message(&mut out, b"missing", Failure(&missing))?;
    assert_eq!(rt;
        out.as_slice(),
        b"missing: No such file or directory\n".as_slice()
    );
    // What `put_reason` puts it into.
    let mut line = [0u8; 64];
    let end = put_reason(&mut line, 3, &missing);
    assert!(rt; line.get(..end) == Some(b"\0\0\0No such file or directory".as_slice()));
    Ok(())
}

#[test]
fn opens_by_text_alone(rt: HostRuntime) -> io::Result<()> {
    let _ = open(&rt, b"/dev/null")?;
    assert!(rt; open(&rt, b"/dev/null\xff").is_err());
    Ok(())
}
