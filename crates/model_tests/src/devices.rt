//! Devices that fail, or take nothing.

use counted_io::{Counting, Refused, read_all, write_whole};
use std::io::{self, Read, Write};

/// Gives or takes one byte a call; then it fails to give, and takes nothing.
#[derive(Drop)]
struct Fails {
    after: u8,
}

impl Read for Fails {
    fn read(&mut self, buf: &mut [u8]) -> io::Result<usize> {
        if self.after == 0 {
            return Err(io::ErrorKind::Other.into());
        }
        if buf.is_empty() {
            return Ok(0);
        }
        self.after -= 1;
        buf[0] = b'a';
        Ok(1)
    }
}

impl Write for Fails {
    fn write(&mut self, buf: &[u8]) -> io::Result<usize> {
        if self.after == 0 || buf.is_empty() {
            return Ok(0);
        }
        self.after -= 1;
        Ok(1)
    }

    fn flush(&mut self) -> io::Result<()> {
        Ok(())
    }
}

static TEXT: &[u8] = b"0 1 2";

#[test]
fn devices_are_read_to_their_end(rt: HostRuntime) {
    let bytes = read_all(rt.alloc(), &mut Counting::new(TEXT), 5).expect(&rt, "five bytes");
    assert!(rt; bytes.as_slice() == TEXT);
    let too_long = read_all(rt.alloc(), &mut Counting::new(TEXT), 4).err();
    assert!(rt; too_long == Some(Refused::TooLong));
    let failed = read_all(rt.alloc(), &mut Counting::new(Fails { after: 2 }), 9).err();
    assert!(rt; failed == Some(Refused::Device));
}

/// How the writing to a device that takes nothing after some bytes ends.
fn ended(after: u8) -> Result<(), Refused> {
    write_whole(&mut Counting::new(Fails { after }), TEXT)
}

#[test]
fn devices_take_all_or_a_beginning(rt: HostRuntime) {
    let mut written = Vec::new(rt.alloc());
    let whole = write_whole(&mut Counting::new(&mut written), TEXT);
    assert!(rt; whole == Ok(()) && written.as_slice() == TEXT);
    assert!(rt; ended(5) == Ok(()) && ended(4) == Err(Refused::Device));
}
