use super::{Cut, Trouble, read_all, write_to};
use std::io;
use std::io::{Read, Write};
use std::test::Fail;

// Gives its bytes by twos, and then fails or ends.
#[derive(Drop)]
struct ByTwos {
    bytes: &'static [u8],
    fails: bool,
}

impl Read for ByTwos {
    fn read(&mut self, buf: &mut [u8]) -> io::Result<usize> {
        if self.bytes.is_empty() && self.fails {
            return Err(io::ErrorKind::Other.into());
        }
        let n = self.bytes.len().min(buf.len()).min(2);
        buf[..n].copy_from_slice(&self.bytes[..n]);
        self.bytes = &self.bytes[n..];
        Ok(n)
    }
}

// Takes so many bytes, and then fails.
#[derive(Drop)]
struct Full {
    room: usize,
}

impl Write for Full {
    fn write(&mut self, buf: &[u8]) -> io::Result<usize> {
        if self.room == 0 {
            return Err(io::ErrorKind::StorageFull.into());
        }
        let n = buf.len().min(self.room);
        self.room -= n;
        Ok(n)
    }

    fn flush(&mut self) -> io::Result<()> {
        Ok(())
    }
}

#[test]
fn reads_to_the_end(rt: HostRuntime) {
    let mut reader = ByTwos {
        bytes: b"abcde",
        fails: false,
    };
    let mut buffer = [0u8; 8];
    let input = read_all(&mut reader, &mut buffer);
    assert_eq!(rt; input, Ok(5));
    assert_eq!(rt; &buffer[..5], b"abcde".as_slice());
}

#[test]
fn reads_a_full_buffer(rt: HostRuntime) {
    let mut reader = ByTwos {
        bytes: b"abcde",
        fails: true,
    };
    let mut buffer = [0u8; 3];
    let input = read_all(&mut reader, &mut buffer);
    assert_eq!(rt; input, Ok(3));
    assert_eq!(rt; &buffer[..3], b"abc".as_slice());
    assert_eq!(rt; reader.bytes, b"de".as_slice());
}

#[test]
fn tells_a_failed_read(rt: HostRuntime) {
    let mut reader = ByTwos {
        bytes: b"abcde",
        fails: true,
    };
    let mut buffer = [0u8; 8];
    let input = read_all(&mut reader, &mut buffer);
    assert_eq!(rt; input, Err(Cut { count: 5 }));
    assert_eq!(rt; &buffer[..5], b"abcde".as_slice());
}

#[test]
fn writes_to_one_stream(rt: HostRuntime) -> Result<(), Fail> {
    let mut output = Vec::new(rt.alloc());
    let mut errors = Vec::new(rt.alloc());
    write_to(Ok(b"one"), &mut output, &mut errors)?;
    write_to(Err(b"two"), &mut output, &mut errors)?;
    assert_eq!(rt; output.as_slice(), b"one".as_slice());
    assert_eq!(rt; errors.as_slice(), b"two".as_slice());
    Ok(())
}

#[test]
fn tells_a_failed_write(rt: HostRuntime) {
    let mut output = Full { room: 2 };
    let mut errors = Full { room: 0 };
    let short = write_to(Ok(b"one"), &mut output, &mut errors);
    assert_eq!(rt; short, Err(Trouble::Unwritable));
    let none = write_to(Err(b"two"), &mut output, &mut errors);
    assert_eq!(rt; none, Err(Trouble::Unwritable));
    let empty = write_to(Err(b""), &mut output, &mut errors);
    assert_eq!(rt; empty, Ok(()));
}

#[test]
fn words_trouble(rt: HostRuntime) -> Result<(), Fail> {
    let text = format!(in rt.alloc(); "{} {}", Trouble::Unreadable, Trouble::Unwritable)?;
    assert_eq!(rt;
        text.as_str(),
        "the input can't be read the answer can't be written"
    );
    Ok(())
}
